// What of a log lies on which server of its row.
ghost use Rattle.std.specs.Prelude.{◌≡◌, IfOk, IfErr, Some, map};
ghost use Rattle.std.specs.List.{range_with_len};
ghost use Rattle.geometry.specs.Keys.{number_of};
ghost use Rattle.row.specs.Rows.{StaysCoherent};
ghost use Rattle.row_packing.specs.Contents.{held_of, bytes_of_stripe, StopsBy, LacksOr};

use crate::fault::PackFault;
use crate::fetch::get_fragment;
use crate::log::Log;
use geometry::key::Key;
use geometry::sizes::Fragment;
use row::row::ServerRow;
use std::alloc::Global;

// The keys of the log's stripes of which this server has a fragment, in order.
pub fn held_on<R: ServerRow>(
    heap: Global,
    boxes: &mut R,
    server: u8,
    log: Log,
) -> Result<Vec<Key>, PackFault>
    ensures held { IfOk result (λ keys. map number_of keys.items ≡ held_of (R.ServerRow.meanings boxes.old) log.client log.stripes server) }
    ensures stops { IfErr result (StopsBy log.client log.stripes) }
    ensures after { R.ServerRow.meanings boxes.new ≡ R.ServerRow.meanings boxes.old }
    ensures coherent { StaysCoherent (R.ServerRow.coherent boxes.old) (R.ServerRow.coherent boxes.new) }
{
    let mut held = Vec::new(heap);
    for number in 0..log.stripes {
        let key = log.stripe(number)?.key;
        if boxes.holds(server as usize, key) {
            held.push(key)?;
        }
    }
    Ok(held)
}

// The same of every server of the row, in order.
pub fn contents<R: ServerRow>(
    heap: Global,
    boxes: &mut R,
    log: Log,
) -> Result<Vec<Vec<Key>>, PackFault>
    ensures held { IfOk result (λ servers. map (λ keys. map number_of keys.items) servers.items ≡ map (held_of (R.ServerRow.meanings boxes.old) log.client log.stripes) (range_with_len 0 log.row.servers)) }
    ensures stops { IfErr result (StopsBy log.client log.stripes) }
    ensures after { R.ServerRow.meanings boxes.new ≡ R.ServerRow.meanings boxes.old }
    ensures coherent { StaysCoherent (R.ServerRow.coherent boxes.old) (R.ServerRow.coherent boxes.new) }
{
    let mut servers = Vec::new(heap);
    for server in 0..log.row.servers() {
        servers.push(held_on(heap, boxes, server, log)?)?;
    }
    Ok(servers)
}

// The fragments that this server has of the log's stripes, one of each, in order. A server that
// lacks one refuses.
pub fn fragments_on<R: ServerRow>(
    heap: Global,
    boxes: &mut R,
    server: u8,
    log: Log,
) -> Result<Vec<Fragment>, PackFault>
    ensures fragments { IfOk result (λ fragments. map Some fragments.items ≡ map (bytes_of_stripe (R.ServerRow.meanings boxes.old) log.client server) (range_with_len 0 log.stripes)) }
    ensures stops { IfErr result (LacksOr (R.ServerRow.meanings boxes.old) log.client log.stripes server) }
    ensures after { R.ServerRow.meanings boxes.new ≡ R.ServerRow.meanings boxes.old }
    ensures coherent { StaysCoherent (R.ServerRow.coherent boxes.old) (R.ServerRow.coherent boxes.new) }
{
    let mut fragments = Vec::new(heap);
    for number in 0..log.stripes {
        let stripe = log.stripe(number)?;
        fragments.push(get_fragment(boxes, None, stripe, server)?)?;
    }
    Ok(fragments)
}
