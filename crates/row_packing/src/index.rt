// The manager's table of what is packed: for each block the entry of its newest slot.
ghost use Rattle.std.specs.Prelude.{◌≡◌, IfOk, IfErr, map};
ghost use Rattle.std.specs.List.{range_with_len};
ghost use Rattle.geometry.specs.Keys.{number_of, key_number};
ghost use Rattle.ordered.specs.Lists.{SameMemory};
ghost use Rattle.row.specs.Rows.{StaysCoherent};
ghost use Rattle.rack.specs.Gathering.{live_count};
ghost use Rattle.manager.specs.Tables.{entries_in, table_of};
ghost use Rattle.row_packing.specs.Contents.{StopsBy};
ghost use Rattle.row_packing.specs.Tables.{fragment_slots, deltas_in, stripe_slots, deltas_read, stripe_answer, stripe_after, index_answer, index_after};

use crate::fault::PackFault;
use crate::fetch::get_fragment;
use crate::log::Log;
use fragment::codec::read;
use fragment::name::FragmentName;
use geometry::placement::PlacedStripe;
use geometry::sizes::{MOST_SLOTS, SLOTS_IN_FRAGMENT};
use manager::fresh::StripeDeltas;
use manager::live::LiveSlots;
use manager::pointing::FragmentDeltas;
use manager::taking::take_all;
use ordered::table::OrderedTable;
use rack::entry::Entry;
use row::row::ServerRow;
use std::alloc::Global;

// The deltas of the slots of one data fragment.
fn fragment_deltas<R: ServerRow>(
    boxes: &mut R,
    missing: Option<u8>,
    stripe: PlacedStripe,
    index: u8,
) -> Result<FragmentDeltas, PackFault>
    ensures deltas { result ≡ deltas_in (fragment_slots (R.ServerRow.meanings boxes.old) stripe.row.servers missing (number_of stripe.key) index) }
    ensures after { R.ServerRow.meanings boxes.new ≡ R.ServerRow.meanings boxes.old }
    ensures coherent { StaysCoherent (R.ServerRow.coherent boxes.old) (R.ServerRow.coherent boxes.new) }
{
    let fragment = get_fragment(boxes, missing, stripe, stripe.data_server(index))?;
    Ok(read(&fragment, FragmentName { stripe, index })?)
}

// Those of all slots of the stripe.
fn stripe_deltas<R: ServerRow>(
    boxes: &mut R,
    missing: Option<u8>,
    stripe: PlacedStripe,
) -> Result<StripeDeltas, PackFault>
    ensures deltas { result ≡ deltas_read (stripe_slots (R.ServerRow.meanings boxes.old) stripe.row.servers missing (number_of stripe.key)) }
    ensures after { R.ServerRow.meanings boxes.new ≡ R.ServerRow.meanings boxes.old }
    ensures coherent { StaysCoherent (R.ServerRow.coherent boxes.old) (R.ServerRow.coherent boxes.new) }
{
    let mut deltas = [None; MOST_SLOTS];
    for index in 0..stripe.row.data_fragments() {
        let slots = fragment_deltas(boxes, missing, stripe, index)?;
        let at = usize::from(index) * SLOTS_IN_FRAGMENT;
        deltas[at..at + SLOTS_IN_FRAGMENT].copy_from_slice(&slots);
    }
    Ok(deltas)
}

// The slots of one stripe take entries. A refusal leaves the table.
fn take_stripe<R: ServerRow>(
    table: &mut OrderedTable<'_, Entry>,
    boxes: &mut R,
    missing: Option<u8>,
    stripe: PlacedStripe,
) -> Result<(), PackFault>
    ensures answer { result ≡ stripe_answer (table_of table.old) (stripe_slots (R.ServerRow.meanings boxes.old) stripe.row.servers missing (number_of stripe.key)) }
    ensures table { table_of table.new ≡ stripe_after (table_of table.old) (number_of stripe.key) (stripe_slots (R.ServerRow.meanings boxes.old) stripe.row.servers missing (number_of stripe.key)) }
    ensures memory { SameMemory table.old.list table.new.list }
    ensures after { R.ServerRow.meanings boxes.new ≡ R.ServerRow.meanings boxes.old }
    ensures coherent { StaysCoherent (R.ServerRow.coherent boxes.old) (R.ServerRow.coherent boxes.new) }
{
    let deltas = stripe_deltas(boxes, missing, stripe)?;
    match take_all(table, stripe.key, &deltas) {
        Ok(_) => Ok(()),
        Err(_) => Err(PackFault::TableFull),
    }
}

// The slots of the log's stripes take entries, stripe by stripe: how many blocks have an entry then. The
// fragments of the missing server are put together from the others. A stripe that does not read back, or
// whose blocks the table has no room for, is refused, and the entries are those of the stripes before it.
pub fn index<R: ServerRow>(
    table: &mut OrderedTable<'_, Entry>,
    boxes: &mut R,
    missing: Option<u8>,
    log: Log,
) -> Result<usize, PackFault>
    ensures answer { result ≡ index_answer (R.ServerRow.meanings boxes.old) log.row.servers missing log.client (table_of table.old) (range_with_len 0 log.stripes) }
    ensures table { table_of table.new ≡ index_after (R.ServerRow.meanings boxes.old) log.row.servers missing log.client (table_of table.old) (range_with_len 0 log.stripes) }
    ensures memory { SameMemory table.old.list table.new.list }
    ensures after { R.ServerRow.meanings boxes.new ≡ R.ServerRow.meanings boxes.old }
    ensures coherent { StaysCoherent (R.ServerRow.coherent boxes.old) (R.ServerRow.coherent boxes.new) }
{
    for number in 0..log.stripes {
        let stripe = log.stripe(number)?;
        take_stripe(table, boxes, missing, stripe)?;
    }
    Ok(table.count())
}

// How many slots of each of the log's stripes are live, in order.
pub fn live_counts(
    heap: Global,
    table: &OrderedTable<'_, Entry>,
    log: Log,
) -> Result<Vec<usize>, PackFault>
    ensures counts { IfOk result (λ counts. counts.items ≡ map (λ j. live_count log.row.servers (entries_in table.now) (key_number log.client j)) (range_with_len 0 log.stripes)) }
    ensures stops { IfErr result (StopsBy log.client log.stripes) }
{
    let mut counts = Vec::new(heap);
    for number in 0..log.stripes {
        let stripe = log.stripe(number)?;
        counts.push(LiveSlots::of(table, stripe.key).count(log.row))?;
    }
    Ok(counts)
}
