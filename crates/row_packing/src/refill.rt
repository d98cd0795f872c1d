// Filling a server again from the others.
ghost use Rattle.std.specs.Prelude.{◌≡◌, OnOk};
ghost use Rattle.std.specs.List.{range_with_len};
ghost use Rattle.geometry.specs.Keys.{number_of};
ghost use Rattle.server.specs.Meaning.{store_after, wipe_after};
ghost use Rattle.row.specs.Rows.{at, StaysCoherent};
ghost use Rattle.row_packing.specs.Fetches.{others, put_together};
ghost use Rattle.row_packing.specs.Refills.{OthersStay, refilled};

use crate::fault::PackFault;
use crate::fetch::put_together;
use crate::log::Log;
use geometry::placement::PlacedStripe;
use ordered::fault::MapFault;
use row::row::ServerRow;

// Stores the server's fragment of this stripe, put together from the others.
fn restore<R: ServerRow>(boxes: &mut R, stripe: PlacedStripe, server: u8) -> Result<(), MapFault>
    ensures others { OthersStay server (R.ServerRow.meanings boxes.old) (R.ServerRow.meanings boxes.new) }
    ensures here { OnOk result (at (R.ServerRow.meanings boxes.new) server ≡ store_after (at (R.ServerRow.meanings boxes.old) server) (number_of stripe.key) (put_together (R.ServerRow.meanings boxes.old) (number_of stripe.key) (others stripe.row.servers server))) }
    ensures coherent { StaysCoherent (R.ServerRow.coherent boxes.old) (R.ServerRow.coherent boxes.new) }
{
    let fragment = put_together(boxes, stripe, server)?;
    boxes.store(server as usize, stripe.key, &fragment)
}

// Does so for every stripe of the log.
fn restore_all<R: ServerRow>(boxes: &mut R, server: u8, log: Log) -> Result<(), PackFault>
    ensures others { OthersStay server (R.ServerRow.meanings boxes.old) (R.ServerRow.meanings boxes.new) }
    ensures here { OnOk result (at (R.ServerRow.meanings boxes.new) server ≡ refilled (R.ServerRow.meanings boxes.old) log.row.servers server log.client (range_with_len 0 log.stripes) (at (R.ServerRow.meanings boxes.old) server)) }
    ensures coherent { StaysCoherent (R.ServerRow.coherent boxes.old) (R.ServerRow.coherent boxes.new) }
{
    for number in 0..log.stripes {
        let stripe = log.stripe(number)?;
        restore(boxes, stripe, server)?;
    }
    Ok(())
}

// Wipes the server, and stores its fragments of the log's stripes again, each put together from the
// others. All other servers stay as they are.
pub fn fill_again<R: ServerRow>(boxes: &mut R, server: u8, log: Log) -> Result<(), PackFault>
    ensures others { OthersStay server (R.ServerRow.meanings boxes.old) (R.ServerRow.meanings boxes.new) }
    ensures here { OnOk result (at (R.ServerRow.meanings boxes.new) server ≡ refilled (R.ServerRow.meanings boxes.old) log.row.servers server log.client (range_with_len 0 log.stripes) (wipe_after (at (R.ServerRow.meanings boxes.old) server))) }
    ensures coherent { StaysCoherent (R.ServerRow.coherent boxes.old) (R.ServerRow.coherent boxes.new) }
{
    boxes.wipe(server as usize);
    restore_all(boxes, server, log)
}
