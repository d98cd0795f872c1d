// The interface of a fragment server. Whatever keeps this meaning is a server; code above is proved
// once, from the meaning alone.
ghost use Rattle.std.specs.Prelude.{◌≡◌};
ghost use Rattle.geometry.specs.Keys.{number_of, number_in};
ghost use Rattle.server.specs.Meaning.{Meaning, Sound, holds, key_from, free, fetched, store_answer, store_after, held_answer, delete_after, wipe_after};

use geometry::key::Key;
use geometry::sizes::Fragment;
use ordered::fault::MapFault;

// A kind may change inside at any call, as a cache does, so every call takes `&mut self`.
// What each leaves stands in full: a name for one equation or one arrow would be as long.
// A key and its bytes stay two parameters, since callers have them apart.
pub trait FragmentServer {
    // What the server means. One meaning has one value.
    ghost meaning: { Self → Meaning };

    // The meaning is in order, and holds no more keys than there are places.
    ghost sound: { (s : Self) → Sound (meaning s) };

    // What is kept inside beside the map, as by a cache, agrees with it. Kinds that keep nothing
    // beside the map say that it always does.
    ghost coherent: { Self → Type 0 };

    // Adds the key with these bytes. Refused Held where the key is there, else Full where no place
    // is free.
    fn store(&mut self, key: Key, bytes: &Fragment) -> Result<(), MapFault>
        ensures answer { result ≡ store_answer (meaning self.old) (number_of key) }
        ensures after { meaning self.new ≡ store_after (meaning self.old) (number_of key) bytes.now }
        ensures coherent { coherent self.old → coherent self.new };

    // Copies the bytes under the key. Refused Absent, and the buffer left, where it is not there.
    fn fetch(&mut self, key: Key, out: &mut Fragment) -> Result<(), MapFault>
        ensures answer { result ≡ held_answer (meaning self.old) (number_of key) }
        ensures copied { out.new ≡ fetched (meaning self.old) (number_of key) out.old }
        ensures after { meaning self.new ≡ meaning self.old }
        ensures coherent { coherent self.old → coherent self.new };

    // Removes the key. Refused Absent where it is not there.
    fn delete(&mut self, key: Key) -> Result<(), MapFault>
        ensures answer { result ≡ held_answer (meaning self.old) (number_of key) }
        ensures after { meaning self.new ≡ delete_after (meaning self.old) (number_of key) }
        ensures coherent { coherent self.old → coherent self.new };

    // Empties the map.
    fn wipe(&mut self)
        ensures after { meaning self.new ≡ wipe_after (meaning self.old) }
        ensures coherent { coherent self.new };

    // Whether the key is there.
    fn holds(&mut self, key: Key) -> bool
        ensures answer { result ≡ holds (meaning self.old) (number_of key) }
        ensures after { meaning self.new ≡ meaning self.old }
        ensures coherent { coherent self.old → coherent self.new };

    // The least key held that is not below this one.
    fn from(&mut self, key: Key) -> Option<Key>
        ensures answer { number_in result ≡ key_from (meaning self.old) (number_of key) }
        ensures after { meaning self.new ≡ meaning self.old }
        ensures coherent { coherent self.old → coherent self.new };

    // How many places there are.
    fn capacity(&mut self) -> u32
        ensures answer { result ≡ (meaning self.old).places }
        ensures after { meaning self.new ≡ meaning self.old }
        ensures coherent { coherent self.old → coherent self.new };

    // How many places are free.
    fn free(&mut self) -> u32
        ensures answer { result ≡ free (meaning self.old) }
        ensures after { meaning self.new ≡ meaning self.old }
        ensures coherent { coherent self.old → coherent self.new };
}
