// The cache above its server. The server below says which keys are held, and every change goes through
// to it. The bytes of a held key are the cached ones, if it is cached.
ghost use Rattle.std.specs.Prelude.{◌≡◌, true, false, is_some, is_ok, Some, None};
ghost use Rattle.geometry.specs.Keys.{number_of};
ghost use Rattle.server.specs.Meaning.{fetched, store_answer, store_after, held_answer, delete_after, wipe_after};
ghost use Rattle.cache.specs.Slots.{cached, Forgets, IsFresh};
ghost use Rattle.cache.specs.Layer.{means, AgreesBelow, Coheres, Keeps};
ghost use Rattle.cache.specs.Overlay.{overlaid_sound};

use crate::slots::CacheSlots;
use geometry::key::Key;
use geometry::sizes::Fragment;
use ordered::fault::MapFault;
use server::fragment_server::FragmentServer;
use server::stored::StoredFragment;

mod keeping;

#[derive(Drop)]
pub struct Cache<S> {
    below: S,
    slots: CacheSlots,
}

impl<S: FragmentServer> Cache<S> {
    // An empty cache. It is coherent if the server is.
    pub fn new(below: S) -> Cache<S>
        ensures below { result.below ≡ below }
        ensures meaning { means S.meaning result ≡ S.meaning below }
        ensures slots { IsFresh result.slots }
        ensures coherent { S.coherent below → Coheres S.meaning S.coherent result }
    {
        Cache {
            below,
            slots: CacheSlots::new(),
        }
    }
}

// A call that promises more than the trait's repeats its clauses, for callers of the cache itself.
// That coherence is kept is one arrow, and what stands below one equation: names for them would be as
// long.
impl<S: FragmentServer> FragmentServer for Cache<S> {
    ghost meaning = { λ c. means S.FragmentServer.meaning c };

    ghost sound = { λ c. overlaid_sound c.slots.all (S.FragmentServer.meaning c.below) (S.FragmentServer.sound c.below) };

    ghost coherent = { λ c. Coheres S.FragmentServer.meaning S.FragmentServer.coherent c };

    // Stores below. Where that is accepted, nothing stays cached under the key.
    fn store(&mut self, key: Key, bytes: &Fragment) -> Result<(), MapFault>
        ensures answer { result ≡ store_answer (means S.meaning self.old) (number_of key) }
        ensures after { means S.meaning self.new ≡ store_after (means S.meaning self.old) (number_of key) bytes.now }
        ensures coherent { Coheres S.meaning S.coherent self.old → Coheres S.meaning S.coherent self.new }
        ensures below { S.meaning self.new.below ≡ store_after (S.meaning self.old.below) (number_of key) bytes.now }
        ensures slots { Forgets (number_of key) (is_ok result) self.old.slots self.new.slots }
    {
        self.below.store(key, bytes)?;
        self.slots.forget(key); // Anything may have been cached, and would hide what was stored.
        Ok(())
    }

    // Copies the cached bytes of a held key, and fetches nothing below. A held key that is not cached
    // is fetched below and kept: always, where what is cached equals what stands below.
    #[tactic(auto, using(crate::proofs::Overlays::holds_over, crate::proofs::Overlays::absent_fetched, crate::proofs::Overlays::hit_fetched))]
    fn fetch(&mut self, key: Key, out: &mut Fragment) -> Result<(), MapFault>
        ensures answer { result ≡ held_answer (means S.meaning self.old) (number_of key) }
        ensures copied { out.new ≡ fetched (means S.meaning self.old) (number_of key) out.old }
        ensures after { means S.meaning self.new ≡ means S.meaning self.old }
        ensures coherent { Coheres S.meaning S.coherent self.old → Coheres S.meaning S.coherent self.new }
        ensures below { S.meaning self.new.below ≡ S.meaning self.old.below }
        ensures refused { is_ok result ≡ false → self.new.slots ≡ self.old.slots }
        ensures hit { is_some (cached self.old.slots.all (number_of key)) ≡ true → self.new.slots ≡ self.old.slots }
        ensures missed { is_ok result ≡ true → cached self.old.slots.all (number_of key) ≡ None → Keeps S.meaning self.old key out.new self.new }
        ensures kept { is_ok result ≡ true → AgreesBelow S.meaning self.old → cached self.new.slots.all (number_of key) ≡ Some out.new }
    {
        if let Some(bytes) = self.slots.find(key) {
            if !self.below.holds(key) {
                return Err(MapFault::Absent);
            }
            *out = *bytes;
            return Ok(());
        }
        self.below.fetch(key, out)?;
        self.keep(StoredFragment { key, bytes: *out });
        Ok(())
    }

    // Deletes below. Where that is accepted, nothing stays cached under the key.
    fn delete(&mut self, key: Key) -> Result<(), MapFault>
        ensures answer { result ≡ held_answer (means S.meaning self.old) (number_of key) }
        ensures after { means S.meaning self.new ≡ delete_after (means S.meaning self.old) (number_of key) }
        ensures coherent { Coheres S.meaning S.coherent self.old → Coheres S.meaning S.coherent self.new }
        ensures below { S.meaning self.new.below ≡ delete_after (S.meaning self.old.below) (number_of key) }
        ensures slots { Forgets (number_of key) (is_ok result) self.old.slots self.new.slots }
    {
        self.below.delete(key)?;
        self.slots.forget(key); // It would hide what is stored there next.
        Ok(())
    }

    // Wipes below, and lets go of everything cached.
    fn wipe(&mut self)
        ensures after { means S.meaning self.new ≡ wipe_after (means S.meaning self.old) }
        ensures coherent { Coheres S.meaning S.coherent self.new }
        ensures below { S.meaning self.new.below ≡ wipe_after (S.meaning self.old.below) }
        ensures slots { IsFresh self.new.slots }
    {
        self.below.wipe();
        self.slots = CacheSlots::new();
    }

    #[tactic(auto, using(crate::proofs::Overlays::holds_over))]
    fn holds(&mut self, key: Key) -> bool {
        self.below.holds(key)
    }

    #[tactic(auto, using(crate::proofs::Overlays::from_over))]
    fn from(&mut self, key: Key) -> Option<Key> {
        self.below.from(key)
    }

    fn capacity(&mut self) -> u32 {
        self.below.capacity()
    }

    fn free(&mut self) -> u32 {
        self.below.free()
    }
}
