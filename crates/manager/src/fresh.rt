// Blocks new to the table: those of a stripe's slots that have no entry yet.
ghost use Rattle.std.specs.Prelude.{◌≡◌, ◌+◌, if◌then◌else◌, [], ◌∷◌, length};
ghost use Rattle.rack.specs.Lists.{is_among};
ghost use Rattle.rack.specs.Restarting.{filled_in};
ghost use Rattle.rack.specs.Sealing.{new_blocks, is_too_small};
ghost use Rattle.manager.specs.Tables.{entries_in, table_of};
ghost use Rattle.manager.specs.Taking.{slots_with, blocks_in, new_count};

use crate::finding::entry_of_block;
use fragment::delta::Delta;
use geometry::sizes::MOST_SLOTS;
use ordered::table::OrderedTable;
use rack::entry::{Entry, block_number};

// The deltas of a stripe's slots, in order; none for an empty slot, or one that a shorter row lacks.
pub type StripeDeltas = [Option<Delta>; MOST_SLOTS];

// Whether a slot is of this block, and whether one of these is.
fn is_of(slot: &Option<Delta>, block: u64) -> bool
    ensures { result ≡ is_among (blocks_in (slot.now ∷ [])) block }
{
    match slot {
        Some(delta) => block_number(delta.file, delta.block) == block,
        None => false,
    }
}

fn is_among(slots: &[Option<Delta>], block: u64) -> bool
    ensures { result ≡ is_among (blocks_in slots.now) block }
{
    slots.iter().any(|slot| is_of(slot, block))
}

// Whether a slot's block has no entry, and none of these later slots is of it.
fn is_last_new(
    table: &OrderedTable<'_, Entry>,
    slot: &Option<Delta>,
    later: &[Option<Delta>],
) -> bool
    ensures { new_count (entries_in table.now) (blocks_in (slot.now ∷ later.now)) ≡ (if result then 1 else 0) + new_count (entries_in table.now) (blocks_in later.now) }
{
    let Some(delta) = slot else {
        return false;
    };
    let held = entry_of_block(table, delta.file, delta.block).is_some();
    !held && !is_among(later, block_number(delta.file, delta.block))
}

// How many blocks of these slots have no entry. Each is counted once, at its last slot.
pub fn new_blocks(table: &OrderedTable<'_, Entry>, deltas: &StripeDeltas) -> usize
    ensures { result ≡ length (new_blocks (entries_in table.now) (filled_in (slots_with deltas.now))) }
{
    let mut count = 0;
    let mut rest = deltas.as_slice();
    while let Some((slot, later)) = rest.split_first() {
        if is_last_new(table, slot, later) {
            count += 1;
        }
        rest = later;
    }
    count
}

// Whether the table has too little room for the new blocks of these slots.
pub fn is_too_small(table: &OrderedTable<'_, Entry>, deltas: &StripeDeltas) -> bool
    ensures { result ≡ is_too_small (table_of table.now) (entries_in table.now) (filled_in (slots_with deltas.now)) }
{
    table.room() - table.count() < new_blocks(table, deltas)
}
