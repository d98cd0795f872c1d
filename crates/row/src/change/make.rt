// Making changes, one at a time.
ghost use Rattle.std.specs.Prelude.{◌≡◌, take};
ghost use Rattle.row.specs.Changes.{changed, applied, made_of, ChangesAddUp, OthersStay};
ghost use Rattle.row.specs.Rows.{StaysCoherent};

use crate::change::{Change, Cut};
use crate::row::ServerRow;

// Makes this one change. One that its server refuses leaves the row. Changes are values, since contracts
// speak of lists of them.
pub fn make<R: ServerRow>(row: &mut R, change: &Change)
    ensures after { R.ServerRow.meanings row.new ≡ changed (R.ServerRow.meanings row.old) change.now }
    ensures coherent { StaysCoherent (R.ServerRow.coherent row.old) (R.ServerRow.coherent row.new) }
    ensures others { OthersStay }
{
    match change {
        Change::Store(server, key, bytes) => {
            let _ = row.store(*server, *key, bytes);
        }
        Change::Delete(server, key) => {
            let _ = row.delete(*server, *key);
        }
        Change::Wipe(server) => row.wipe(*server),
    }
}

// Makes the changes in order, the first `budget` of them where there are more.
pub fn make_up_to<R: ServerRow>(row: &mut R, changes: &[Change], budget: usize) -> Result<(), Cut>
    ensures made { result ≡ made_of budget changes.now }
    ensures after { R.ServerRow.meanings row.new ≡ applied (take budget changes.now) (R.ServerRow.meanings row.old) }
    ensures coherent { StaysCoherent (R.ServerRow.coherent row.old) (R.ServerRow.coherent row.new) }
    ensures adds { ChangesAddUp }
{
    for (done, change) in changes.iter().enumerate() {
        if done >= budget {
            return Err(Cut);
        }
        make(row, change);
    }
    Ok(())
}
