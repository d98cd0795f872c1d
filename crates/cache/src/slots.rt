// The slots of a cache. They are filled in turn, so that the fragment longest there goes first.
ghost use Rattle.std.specs.Prelude.{◌≡◌, ◌<◌, length};
ghost use Rattle.cache.specs.Sizes.{slots_in_cache};

use server::stored::StoredFragment;

mod calls;

pub const SLOTS: usize = 4;

// An array and whose turn it is, since memory is fixed here: no heap, and so no queue of std.
#[derive(Clone, Copy)]
pub struct CacheSlots {
    all: [Option<StoredFragment>; SLOTS],
    turn: usize,
    ghost long: { length all ≡ slots_in_cache },
    ghost within: { turn < slots_in_cache },
}
