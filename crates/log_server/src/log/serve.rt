// The log server serves fragments. Beside what the interface asks, each call says which bytes it
// leaves, and that they are the lender's. What a call that only looks leaves of the meaning follows.
//
// A struct that states a fact of its fields does not lend what one of them refers to. So the bytes
// are taken out of it while they are written, and put back.
#![tactic(auto, using(crate::proofs::Meanings::area_counts))]

ghost use Rattle.std.specs.Prelude.{◌≡◌};
ghost use Rattle.geometry.specs.Keys.{number_of, number_in};
ghost use Rattle.server.specs.Meaning.{holds, key_from, free, fetched, store_answer, store_after, held_answer, delete_after, wipe_after};
ghost use Rattle.log_server.specs.Sound.{area_sound};
ghost use Rattle.log_server.specs.Records.{held_record};
ghost use Rattle.log_server.specs.Calls.{stored, deleted, wiped};
ghost use Rattle.log_server.specs.Servers.{bytes_in, meaning_in, Leaves};

use crate::edit::{clear, close_gap, put_record};
use crate::log::LogServer;
use geometry::key::Key;
use geometry::sizes::Fragment;
use ordered::fault::MapFault;
use server::fragment_server::FragmentServer;
use std::mem;

impl<'a> FragmentServer for LogServer<'a> {
    ghost meaning = { meaning_in };

    ghost sound = { λ s. area_sound (bytes_in s) };

    // All that is kept is in the bytes.
    ghost coherent = { λ _. Unit {0} };

    fn store(&mut self, key: Key, bytes: &Fragment) -> Result<(), MapFault>
        ensures answer { result ≡ store_answer (meaning_in self.old) (number_of key) }
        ensures after { meaning_in self.new ≡ store_after (meaning_in self.old) (number_of key) bytes.now }
        ensures area { Leaves self.old self.new (stored (bytes_in self.old) (number_of key) (held_record key.client key.stripe bytes.now)) }
    {
        if self.has(key) {
            return Err(MapFault::Held);
        }
        if self.is_full() {
            return Err(MapFault::Full);
        }
        let held = self.held;
        let area = mem::take(&mut self.bytes);
        put_record(area, held, key, bytes);
        self.bytes = area;
        self.held = held + 1;
        Ok(())
    }

    fn fetch(&mut self, key: Key, out: &mut Fragment) -> Result<(), MapFault>
        ensures answer { result ≡ held_answer (meaning_in self.old) (number_of key) }
        ensures copied { out.new ≡ fetched (meaning_in self.old) (number_of key) out.old }
        ensures area { Leaves self.old self.new (bytes_in self.old) }
    {
        self.copy_out(key, out)
    }

    fn delete(&mut self, key: Key) -> Result<(), MapFault>
        ensures answer { result ≡ held_answer (meaning_in self.old) (number_of key) }
        ensures after { meaning_in self.new ≡ delete_after (meaning_in self.old) (number_of key) }
        ensures area { Leaves self.old self.new (deleted (bytes_in self.old) (number_of key)) }
    {
        let i = self.place(key).ok_or(MapFault::Absent)?;
        let held = self.held;
        let area = mem::take(&mut self.bytes);
        close_gap(area, i, held);
        self.bytes = area;
        self.held = held - 1;
        Ok(())
    }

    fn wipe(&mut self)
        ensures after { meaning_in self.new ≡ wipe_after (meaning_in self.old) }
        ensures area { Leaves self.old self.new (wiped (bytes_in self.old)) }
    {
        let area = mem::take(&mut self.bytes);
        clear(area, self.held);
        self.bytes = area;
        self.held = 0;
    }

    fn holds(&mut self, key: Key) -> bool
        ensures answer { result ≡ holds (meaning_in self.old) (number_of key) }
        ensures area { Leaves self.old self.new (bytes_in self.old) }
    {
        self.has(key)
    }

    fn from(&mut self, key: Key) -> Option<Key>
        ensures answer { number_in result ≡ key_from (meaning_in self.old) (number_of key) }
        ensures area { Leaves self.old self.new (bytes_in self.old) }
    {
        self.first_from(key)
    }

    fn capacity(&mut self) -> u32
        ensures answer { result ≡ (meaning_in self.old).places }
        ensures area { Leaves self.old self.new (bytes_in self.old) }
    {
        self.capacity as u32
    }

    fn free(&mut self) -> u32
        ensures answer { result ≡ free (meaning_in self.old) }
        ensures area { Leaves self.old self.new (bytes_in self.old) }
    {
        (self.capacity - self.held) as u32
    }
}
