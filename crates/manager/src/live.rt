// Live slots: those that an entry of the table points at.
ghost use Rattle.std.specs.Prelude.{◌≡◌, ◌≤◌, ◌&&◌, if◌then◌else◌, length, nat_lt};
ghost use Rattle.geometry.specs.Keys.{number_of};
ghost use Rattle.geometry.specs.Sizes.{slots_in_fragment};
ghost use Rattle.rack.specs.Entries.{entry_of};
ghost use Rattle.rack.specs.Gathering.{points_at, is_live, live_slots, has_live, live_count};
ghost use Rattle.manager.specs.Live.{live_marks, OfStripe};
ghost use Rattle.manager.specs.Tables.{entries_in};

use geometry::key::Key;
use geometry::row::RowLength;
use geometry::sizes::{MOST_DATA, MOST_SLOTS, SLOTS_IN_FRAGMENT};
use ordered::table::OrderedTable;
use rack::entry::Entry;
use std::array;

fn points_at(entry: &Entry, key: Key, index: usize, slot: usize) -> bool
    ensures { result ≡ points_at (number_of key) index slot (entry_of entry.now) }
{
    entry.place.key == key
        && usize::from(entry.place.index) == index
        && usize::from(entry.place.slot) == slot
}

// Whether an entry points at the slot of this number in data fragment `index`.
pub fn is_live(table: &OrderedTable<'_, Entry>, key: Key, index: usize, slot: usize) -> bool
    ensures { result ≡ is_live (entries_in table.now) (number_of key) index slot }
{
    table
        .elements()
        .iter()
        .any(|entry| points_at(entry, key, index, slot))
}

// Which slots of a stripe are live, told by one look at the table for each.
#[derive(Clone, Copy)]
pub struct LiveSlots {
    slots: [bool; MOST_SLOTS],
}

impl LiveSlots {
    // Those of the stripe under this key.
    pub fn of(table: &OrderedTable<'_, Entry>, key: Key) -> LiveSlots
        ensures { result.slots ≡ live_marks (entries_in table.now) (number_of key) }
    {
        LiveSlots {
            slots: array::from_fn(|slot| {
                is_live(
                    table,
                    key,
                    slot / SLOTS_IN_FRAGMENT,
                    slot % SLOTS_IN_FRAGMENT,
                )
            }),
        }
    }

    // Whether the slot of this number in data fragment `index` is live. There are no others than of the
    // longest row.
    #[tactic(auto, using(crate::proofs::Marks::mark_at))]
    pub fn is_live(&self, index: usize, slot: usize) -> bool
        ensures { OfStripe self.now.slots (λ es k. result ≡ (nat_lt index 7 && nat_lt slot slots_in_fragment && is_live es k index slot)) }
    {
        index < MOST_DATA
            && slot < SLOTS_IN_FRAGMENT
            && self.slots[SLOTS_IN_FRAGMENT * index + slot]
    }

    // How many slots of data fragment `index` are live.
    #[tactic(auto, using(crate::proofs::Marks::three_slots))]
    pub fn count_in(&self, index: usize) -> usize
        ensures few { result ≤ 3 }
        ensures count { OfStripe self.now.slots (λ es k. result ≡ (if nat_lt index 7 then length (live_slots es k index) else 0)) }
    {
        usize::from(self.is_live(index, 0))
            + usize::from(self.is_live(index, 1))
            + usize::from(self.is_live(index, 2))
    }

    // Whether data fragment `index` has a live slot.
    pub fn has_live(&self, index: usize) -> bool
        ensures { OfStripe self.now.slots (λ es k. result ≡ (nat_lt index 7 && has_live es k index)) }
    {
        self.count_in(index) > 0
    }

    // How many slots of the stripe are live on this row.
    pub fn count(&self, row: RowLength) -> usize
        ensures { OfStripe self.now.slots (λ es k. result ≡ live_count row.servers es k) }
    {
        let mut count = 0;
        for index in 0..usize::from(row.data_fragments()) {
            count += self.count_in(index);
        }
        count
    }
}
