// Slots of a stripe take the entries of their blocks.
ghost use Rattle.std.specs.Prelude.{◌≡◌, ◌≤◌, length};
ghost use Rattle.geometry.specs.Keys.{number_of};
ghost use Rattle.ordered.specs.Lists.{SameMemory};
ghost use Rattle.ordered.specs.Tables.{room};
ghost use Rattle.rack.specs.Entries.{entry_of};
ghost use Rattle.rack.specs.Sealing.{entry_for, take_one, passed_over};
ghost use Rattle.manager.specs.Tables.{entries_in, table_of};
ghost use Rattle.manager.specs.Taking.{with_delta, slot_with, slots_with, take_answer, take_after, take_all_answer, take_all_after};

use crate::finding::entry_of_block;
use crate::fresh::{StripeDeltas, is_too_small};
use fragment::delta::Delta;
use geometry::key::Key;
use geometry::sizes::SLOTS_IN_FRAGMENT;
use ordered::fault::MapFault;
use ordered::table::OrderedTable;
use rack::entry::{Entry, SlotPlace};

// The entry of a slot, numbered in the whole stripe of the key.
fn entry_for(key: Key, slot: u8, delta: &Delta) -> Entry
    ensures { entry_of result ≡ entry_for (number_of key) slot (with_delta delta.now) }
{
    let in_fragment = SLOTS_IN_FRAGMENT as u8;
    Entry {
        file: delta.file,
        block: delta.block,
        kind: delta.kind,
        pair: delta.pair(),
        place: SlotPlace {
            key,
            index: slot / in_fragment,
            slot: slot % in_fragment,
        },
    }
}

// The slot takes the entry of its block where there is none or where its pair is higher: whether it
// does. A block new to a full table is refused, and then nothing has changed.
#[tactic(auto, using(crate::proofs::Entries::new_after))]
pub fn take(
    table: &mut OrderedTable<'_, Entry>,
    key: Key,
    slot: u8,
    delta: &Delta,
) -> Result<bool, MapFault>
    ensures answer { result ≡ take_answer (room table.old) (entries_in table.old) (with_delta delta.now) }
    ensures entries { entries_in table.new ≡ take_after (room table.old) (number_of key) slot (entries_in table.old) (with_delta delta.now) }
    ensures memory { SameMemory table.old.list table.new.list }
{
    let entry = entry_for(key, slot, delta);
    match entry_of_block(table, delta.file, delta.block) {
        Some(held) if !entry.pair.beats(&held.pair) => Ok(false),
        Some(_) => table.replace(entry).and(Ok(true)),
        None => table.insert(entry).and(Ok(true)),
    }
}

// The same of a slot that may be empty, where there is room: 1 if it is filled and takes no entry.
fn take_slot(
    table: &mut OrderedTable<'_, Entry>,
    key: Key,
    slot: u8,
    filled: &Option<Delta>,
) -> usize
    requires { length (take_one (number_of key) slot (entries_in table.old) (slot_with filled.now)) ≤ room table.old }
    ensures answer { result ≡ passed_over (entries_in table.old) (slot_with filled.now) }
    ensures entries { entries_in table.new ≡ take_one (number_of key) slot (entries_in table.old) (slot_with filled.now) }
    ensures memory { SameMemory table.old.list table.new.list }
{
    match filled {
        Some(delta) => usize::from(!take(table, key, slot, delta).unwrap()),
        None => 0,
    }
}

// All slots of the stripe take entries, one after another: how many filled ones do not. Where the
// table has too little room for the new blocks it is refused, and then nothing has changed.
pub fn take_all(
    table: &mut OrderedTable<'_, Entry>,
    key: Key,
    deltas: &StripeDeltas,
) -> Result<usize, MapFault>
    ensures answer { result ≡ take_all_answer (table_of table.old) (number_of key) (slots_with deltas.now) }
    ensures entries { entries_in table.new ≡ take_all_after (table_of table.old) (number_of key) (slots_with deltas.now) }
    ensures memory { SameMemory table.old.list table.new.list }
{
    if is_too_small(table, deltas) {
        return Err(MapFault::Full);
    }
    let mut passed_over = 0;
    for (slot, filled) in deltas.iter().enumerate() {
        passed_over += take_slot(table, key, slot as u8, filled);
    }
    Ok(passed_over)
}
