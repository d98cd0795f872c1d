// Which servers hold a stripe's fragment, and which does not.
ghost use Rattle.std.specs.Prelude.{◌≡◌, ◌-◌, length, None, nat_le};
ghost use Rattle.geometry.specs.Keys.{number_of};
ghost use Rattle.rack.specs.Restarting.{holders};
ghost use Rattle.row.specs.Rows.{StaysCoherent};
ghost use Rattle.row_fragments.specs.Servers.{servers_in};
ghost use Rattle.row_fragments.specs.Lacking.{first_lacking, TornIsFirst};

use crate::server_set::ServerSet;
use geometry::key::Key;
use geometry::row::RowLength;
use row::row::ServerRow;

// Those of these servers that hold the key.
pub fn holders<R: ServerRow>(row: &mut R, servers: ServerSet, key: Key) -> ServerSet
    ensures holders { servers_in result ≡ holders (R.ServerRow.meanings row.old) (servers_in servers) (number_of key) }
    ensures held { first_lacking (R.ServerRow.meanings row.old) (number_of key) (servers_in result) ≡ None }
    ensures after { R.ServerRow.meanings row.new ≡ R.ServerRow.meanings row.old }
    ensures coherent { StaysCoherent (R.ServerRow.coherent row.old) (R.ServerRow.coherent row.new) }
{
    let mut members = servers.members;
    for (server, member) in members.iter_mut().enumerate() {
        if *member {
            *member = row.holds(server, key);
        }
    }
    ServerSet { members }
}

// Whether a stripe counts that these servers hold fragments of: at most one of the row is missing.
pub fn counts(row: RowLength, holders: ServerSet) -> bool
    ensures { result ≡ nat_le (row.servers - 1) (length (servers_in holders)) }
{
    holders.count() >= row.data_fragments() as usize
}

// The lowest of these servers that lacks the key.
pub fn first_lacking<R: ServerRow>(row: &mut R, servers: ServerSet, key: Key) -> Option<u8>
    ensures torn { TornIsFirst }
    ensures server { result ≡ first_lacking (R.ServerRow.meanings row.old) (number_of key) (servers_in servers) }
    ensures after { R.ServerRow.meanings row.new ≡ R.ServerRow.meanings row.old }
    ensures coherent { StaysCoherent (R.ServerRow.coherent row.old) (R.ServerRow.coherent row.new) }
{
    for (server, member) in servers.members.iter().enumerate() {
        if *member && !row.holds(server, key) {
            return Some(server as u8);
        }
    }
    None
}
