// What a stripe being filled says of itself.
ghost use Rattle.std.specs.Prelude.{◌≡◌, ◌<◌, ◌≤◌, length, MatchOption};
ghost use Rattle.std.specs.Option.{option_map};
ghost use Rattle.geometry.specs.Sizes.{block_length};
ghost use Rattle.stripe.specs.Contents.{slot_at, deltas_of, open_fragments};
ghost use Rattle.stripe.specs.Means.{slots_in};

use crate::buffer::StripeBuffer;
use fragment::codec::{block_in, read_delta};
use fragment::delta::Delta;
use fragment::layout::Layout;
use geometry::sizes::{Block, Fragment, MOST_SLOTS, SLOTS_IN_FRAGMENT};

impl StripeBuffer {
    // How many slots are filled.
    pub fn filled(&self) -> usize
        ensures { result ≡ length (slots_in self.now) }
    {
        self.filled
    }

    // The data fragments of the longest row with these slots, their heads still zero.
    pub fn fragments(&self) -> &[Fragment]
        ensures { result.now ≡ open_fragments (slots_in self.now) }
    {
        &self.slots.fragments[..]
    }

    // The deltas of the slots in order, none past the filled ones.
    pub fn deltas(&self) -> [Option<Delta>; MOST_SLOTS]
        ensures { result ≡ deltas_of (slots_in self.now) }
    {
        let mut deltas = [None; MOST_SLOTS];
        // By number: `iter_mut` cut short by `take`, or `array::from_fn` over all slots, costs more.
        for slot in 0..self.filled {
            deltas[slot] = self.delta(slot);
        }
        deltas
    }

    // The delta in a slot, if it is filled. An empty slot is not read: it would be looked at to its last
    // byte.
    fn delta(&self, slot: usize) -> Option<Delta>
        ensures { result ≡ option_map (λ x. x.delta) (slot_at (slots_in self.now) slot) }
    {
        if self.filled <= slot {
            return None;
        }
        let fragment = &self.slots.fragments[slot / SLOTS_IN_FRAGMENT];
        read_delta(fragment, Layout::Two, slot % SLOTS_IN_FRAGMENT).unwrap_or(None)
    }

    // The bytes of the block in a filled slot.
    pub fn block(&self, slot: usize) -> Option<&Block>
        ensures bytes { option_map (λ x. x.now) result ≡ option_map (λ x. x.bytes) (slot_at (slots_in self.now) slot) }
        ensures known { MatchOption result (length (slots_in self.now) ≤ slot) (λ _. slot < length (slots_in self.now)) }
    {
        if slot >= self.filled {
            return None;
        }
        block_in(
            &self.slots.fragments[slot / SLOTS_IN_FRAGMENT],
            slot % SLOTS_IN_FRAGMENT,
        )
    }
}
