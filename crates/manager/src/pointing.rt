// Entries that point into a stripe: whether its slots hold them, and whether they can move once more.
ghost use Rattle.std.specs.Prelude.{◌≡◌, Ok};
ghost use Rattle.std.specs.List.{list_all};
ghost use Rattle.geometry.specs.Keys.{number_of};
ghost use Rattle.rack.specs.Entries.{entry_of};
ghost use Rattle.rack.specs.Fragments.{has_delta, slot_number, cause_in};
ghost use Rattle.rack.specs.Gathering.{points_into, pointing_into, is_worn_at, is_worn};
ghost use Rattle.manager.specs.Pointing.{held_in};
ghost use Rattle.manager.specs.Tables.{entries_in};
ghost use Rattle.manager.specs.Taking.{slot_with, slots_with};

use fragment::cause::Cause;
use fragment::delta::Delta;
use geometry::key::Key;
use geometry::row::RowLength;
use geometry::sizes::SLOTS_IN_FRAGMENT;
use ordered::table::OrderedTable;
use rack::entry::{Entry, block_number};

// The deltas of a data fragment's slots, as it reads; none for an empty slot.
pub type FragmentDeltas = [Option<Delta>; SLOTS_IN_FRAGMENT];

// Whether a slot has the delta of an entry.
fn has_delta(entry: &Entry, slot: &Option<Delta>) -> bool
    ensures { result ≡ has_delta (entry_of entry.now) (slot_with slot.now) }
{
    let Some(delta) = slot else {
        return false;
    };
    entry.kind == delta.kind
        && block_number(entry.file, entry.block) == block_number(delta.file, delta.block)
        && entry.pair == delta.pair()
}

// Whether the slot that the entry names is there and has its delta.
pub fn is_held(entry: &Entry, slots: &FragmentDeltas) -> bool
    ensures { result ≡ has_delta (entry_of entry.now) (slot_number (slots_with slots.now) entry.now.place.slot) }
{
    match slots.get(usize::from(entry.place.slot)) {
        Some(slot) => has_delta(entry, slot),
        None => false,
    }
}

fn points_into(entry: &Entry, key: Key, index: usize) -> bool
    ensures { result ≡ points_into (number_of key) index (entry_of entry.now) }
{
    entry.place.key == key
        && usize::from(entry.place.index) == index
        && usize::from(entry.place.slot) < SLOTS_IN_FRAGMENT
}

// Whether each entry that points into the data fragment is held by its slot.
fn holds_all(
    table: &OrderedTable<'_, Entry>,
    key: Key,
    index: usize,
    slots: &FragmentDeltas,
) -> bool
    ensures { result ≡ list_all (held_in (number_of key) index (slots_with slots.now)) (entries_in table.now) }
{
    table.elements().iter().all(|entry| !points_into(entry, key, index) || is_held(entry, slots))
}

// The cause in a data fragment that reads as these slots: that an entry which points into it is not
// held by its slot.
#[tactic(auto, using(crate::proofs::Walks::cause_of_all))]
pub fn cause_in(
    table: &OrderedTable<'_, Entry>,
    key: Key,
    index: usize,
    slots: &FragmentDeltas,
) -> Option<Cause>
    ensures { result ≡ cause_in (Ok (slots_with slots.now)) (pointing_into (entries_in table.now) (number_of key) index) }
{
    if holds_all(table, key, index, slots) {
        None
    } else {
        Some(Cause::BadSlot)
    }
}

fn is_worn_at(entry: &Entry, row: RowLength, key: Key) -> bool
    ensures { result ≡ is_worn_at row.servers (number_of key) (entry_of entry.now) }
{
    entry.place.index < row.data_fragments()
        && points_into(entry, key, usize::from(entry.place.index))
        && entry.pair.moves == u16::MAX
}

// Whether a live slot of the stripe on this row has moved as often as can be told.
pub fn is_worn(table: &OrderedTable<'_, Entry>, row: RowLength, key: Key) -> bool
    ensures { result ≡ is_worn row.servers (entries_in table.now) (number_of key) }
{
    table
        .elements()
        .iter()
        .any(|entry| is_worn_at(entry, row, key))
}
