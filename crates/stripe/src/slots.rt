// The bytes of the data fragments of one stripe, and the writing of one slot among them.
ghost use Rattle.std.specs.Prelude.{◌≡◌, ◌<◌, [], slice_index_or, slice_set};
ghost use Rattle.geometry.specs.Sizes.{slots_in_fragment};
ghost use Rattle.fragment.specs.Slots.{filled_with};
ghost use Rattle.fragment.specs.Fragments.{put_slot};

use fragment::codec::fill_slot;
use fragment::delta::Delta;
use geometry::sizes::{Block, Fragment, MOST_DATA};

#[derive(Drop)]
pub(crate) struct SlotBytes {
    pub(crate) fragments: [Fragment; MOST_DATA],
}

impl SlotBytes {
    // Fills a slot; no other byte changes. Both numbers are in range: types for them would be no plainer.
    pub(crate) fn put(&mut self, index: usize, slot: usize, delta: &Delta, block: &Block)
        requires index { index < 7 }
        requires slot { slot < slots_in_fragment }
        ensures { self.new.fragments ≡ slice_set self.old.fragments index (put_slot slot (filled_with delta.now block.now) (slice_index_or self.old.fragments index [])) }
    {
        fill_slot(&mut self.fragments[index], slot, delta, block).unwrap();
    }
}
