// A row of servers, numbered from 0. A number that is not in the row answers as a server with no
// places does, and nothing is touched.
ghost use Rattle.std.specs.Prelude.{◌≡◌, ℕ, ◌-◌, ◌^◌, min, List, length, slice_set};
ghost use Rattle.std.specs.List.{AllByRecursion};
ghost use Rattle.geometry.specs.Keys.{number_of, number_in};
ghost use Rattle.server.specs.Meaning.{Meaning, Sound, holds, key_from, free, fetched, store_answer, store_after, held_answer, delete_after, wipe_after};
ghost use Rattle.row.specs.Rows.{at, StaysCoherent};

use geometry::key::Key;
use geometry::sizes::Fragment;
use ordered::fault::MapFault;

// What a call that only looks leaves is one equation, and a name for it would be as long.
// A server's number and a key stay two parameters, since callers have them apart.
pub trait ServerRow {
    // The meanings of the servers, in order.
    ghost meanings: { Self → List Meaning };

    ghost sound: { (r : Self) → AllByRecursion Sound (meanings r) };

    // What server s keeps inside beside its map agrees with it.
    ghost coherent: { Self → ℕ → Type 0 };

    // How many servers there are, counted up to 2^64 − 1.
    fn len(&self) -> usize
        ensures { result ≡ min (length (meanings self.now)) (2 ^ 64 - 1) };

    fn store(&mut self, server: usize, key: Key, bytes: &Fragment) -> Result<(), MapFault>
        ensures answer { result ≡ store_answer (at (meanings self.old) server) (number_of key) }
        ensures after { meanings self.new ≡ slice_set (meanings self.old) server (store_after (at (meanings self.old) server) (number_of key) bytes.now) }
        ensures coherent { StaysCoherent (coherent self.old) (coherent self.new) };

    fn fetch(&mut self, server: usize, key: Key, out: &mut Fragment) -> Result<(), MapFault>
        ensures answer { result ≡ held_answer (at (meanings self.old) server) (number_of key) }
        ensures copied { out.new ≡ fetched (at (meanings self.old) server) (number_of key) out.old }
        ensures after { meanings self.new ≡ meanings self.old }
        ensures coherent { StaysCoherent (coherent self.old) (coherent self.new) };

    fn delete(&mut self, server: usize, key: Key) -> Result<(), MapFault>
        ensures answer { result ≡ held_answer (at (meanings self.old) server) (number_of key) }
        ensures after { meanings self.new ≡ slice_set (meanings self.old) server (delete_after (at (meanings self.old) server) (number_of key)) }
        ensures coherent { StaysCoherent (coherent self.old) (coherent self.new) };

    fn wipe(&mut self, server: usize)
        ensures after { meanings self.new ≡ slice_set (meanings self.old) server (wipe_after (at (meanings self.old) server)) }
        ensures coherent { StaysCoherent (coherent self.old) (coherent self.new) }
        ensures wiped { coherent self.new server };

    fn holds(&mut self, server: usize, key: Key) -> bool
        ensures answer { result ≡ holds (at (meanings self.old) server) (number_of key) }
        ensures after { meanings self.new ≡ meanings self.old }
        ensures coherent { StaysCoherent (coherent self.old) (coherent self.new) };

    fn from(&mut self, server: usize, key: Key) -> Option<Key>
        ensures answer { number_in result ≡ key_from (at (meanings self.old) server) (number_of key) }
        ensures after { meanings self.new ≡ meanings self.old }
        ensures coherent { StaysCoherent (coherent self.old) (coherent self.new) };

    fn capacity(&mut self, server: usize) -> u32
        ensures answer { result ≡ (at (meanings self.old) server).places }
        ensures after { meanings self.new ≡ meanings self.old }
        ensures coherent { StaysCoherent (coherent self.old) (coherent self.new) };

    fn free(&mut self, server: usize) -> u32
        ensures answer { result ≡ free (at (meanings self.old) server) }
        ensures after { meanings self.new ≡ meanings self.old }
        ensures coherent { StaysCoherent (coherent self.old) (coherent self.new) };
}
