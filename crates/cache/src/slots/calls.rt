// Looking up, forgetting and filling.
ghost use Rattle.std.specs.Prelude.{◌≡◌, ◌+◌, ◌%◌, Some, None, MatchOption, slice_index_or, slice_set};
ghost use Rattle.geometry.specs.Keys.{number_of};
ghost use Rattle.cache.specs.Sizes.{slots_in_cache};
ghost use Rattle.cache.specs.Slots.{cached, forgotten, key_in, IsFresh};

use crate::slots::{CacheSlots, SLOTS};
use geometry::key::Key;
use geometry::sizes::Fragment;
use server::stored::StoredFragment;

impl CacheSlots {
    pub fn new() -> CacheSlots
        ensures { IsFresh result }
    {
        CacheSlots {
            all: [None; SLOTS],
            turn: 0,
        }
    }

    // The bytes cached under a key.
    pub fn find(&self, key: Key) -> Option<&Fragment>
        ensures { MatchOption result (cached self.now.all (number_of key) ≡ None) (λ bytes. cached self.now.all (number_of key) ≡ Some bytes.now) }
    {
        self.all
            .iter()
            .flatten()
            .find(|kept| kept.key == key)
            .map(|kept| &kept.bytes)
    }

    // The key of the fragment whose turn it is to go.
    pub fn next_out(&self) -> Option<Key>
        ensures { result ≡ key_in (slice_index_or self.now.all self.now.turn None) }
    {
        self.all[self.turn].map(|kept| kept.key)
    }

    // Lets go of what is cached under a key.
    pub fn forget(&mut self, key: Key)
        ensures all { self.new.all ≡ forgotten (number_of key) self.old.all }
        ensures turn { self.new.turn ≡ self.old.turn }
    {
        for slot in self.all.iter_mut() {
            slot.take_if(|kept| kept.key == key);
        }
    }

    // Fills the slot whose turn it is.
    pub fn fill(&mut self, kept: StoredFragment)
        ensures all { self.new.all ≡ slice_set self.old.all self.old.turn (Some kept) }
        ensures turn { self.new.turn ≡ (self.old.turn + 1) % slots_in_cache }
    {
        self.all[self.turn] = Some(kept);
        self.turn = (self.turn + 1) % SLOTS;
    }
}
