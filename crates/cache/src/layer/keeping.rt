// Keeping a fragment that came from below.
ghost use Rattle.std.specs.Prelude.{◌≡◌};
ghost use Rattle.geometry.specs.Keys.{number_of};
ghost use Rattle.cache.specs.Overlay.{is_spare, keep_after, turn_after};

use crate::layer::Cache;
use geometry::key::Key;
use geometry::sizes::{FRAGMENT_LENGTH, Fragment};
use server::fragment_server::FragmentServer;
use server::stored::StoredFragment;

impl<S: FragmentServer> Cache<S> {
    // Whether what is cached under a key may go. It may not where other bytes stand below: the cache
    // means those that are cached, and a fetch must leave what it means.
    fn is_spare(&mut self, key: Key) -> bool
        ensures answer { result ≡ is_spare (S.meaning self.old.below) self.old.slots.all (number_of key) }
        ensures below { S.meaning self.new.below ≡ S.meaning self.old.below }
        ensures slots { self.new.slots ≡ self.old.slots }
        ensures coherent { S.coherent self.old.below → S.coherent self.new.below }
    {
        let mut standing: Fragment = [0; FRAGMENT_LENGTH];
        self.below.fetch(key, &mut standing).is_err()
            || self.slots.find(key).is_none_or(|bytes| *bytes == standing)
    }

    // Fills the slot whose turn it is, if what is there may go.
    pub(super) fn keep(&mut self, kept: StoredFragment)
        ensures below { S.meaning self.new.below ≡ S.meaning self.old.below }
        ensures slots { self.new.slots.all ≡ keep_after (S.meaning self.old.below) self.old.slots.all self.old.slots.turn kept }
        ensures turn { self.new.slots.turn ≡ turn_after (S.meaning self.old.below) self.old.slots.all self.old.slots.turn }
        ensures coherent { S.coherent self.old.below → S.coherent self.new.below }
    {
        if let Some(old) = self.slots.next_out() {
            if !self.is_spare(old) {
                return;
            }
            self.slots.forget(old);
        }
        self.slots.fill(kept);
    }
}
