// A row of one server, which is number 0.
// Each call tests the number: a method that lent the server out would owe a contract on the loan.
ghost use Rattle.std.specs.Prelude.{◌≡◌, [], ◌∷◌};

use crate::row::ServerRow;
use geometry::key::Key;
use geometry::sizes::Fragment;
use ordered::fault::MapFault;
use server::fragment_server::FragmentServer;

#[derive(Drop)]
pub struct One<S> {
    pub server: S,
}

impl<S: FragmentServer> ServerRow for One<S> {
    ghost meanings = { λ r. S.FragmentServer.meaning r.server ∷ [] };

    ghost sound = { λ r. (S.FragmentServer.sound r.server, tt) };

    ghost coherent = { λ r s. (s ≡ 0 → S.FragmentServer.coherent r.server) };

    fn len(&self) -> usize {
        1
    }

    fn store(&mut self, server: usize, key: Key, bytes: &Fragment) -> Result<(), MapFault> {
        if server == 0 {
            self.server.store(key, bytes)
        } else {
            Err(MapFault::Full)
        }
    }

    fn fetch(&mut self, server: usize, key: Key, out: &mut Fragment) -> Result<(), MapFault> {
        if server == 0 {
            self.server.fetch(key, out)
        } else {
            Err(MapFault::Absent)
        }
    }

    fn delete(&mut self, server: usize, key: Key) -> Result<(), MapFault> {
        if server == 0 {
            self.server.delete(key)
        } else {
            Err(MapFault::Absent)
        }
    }

    fn wipe(&mut self, server: usize) {
        if server == 0 {
            self.server.wipe();
        }
    }

    fn holds(&mut self, server: usize, key: Key) -> bool {
        server == 0 && self.server.holds(key)
    }

    fn from(&mut self, server: usize, key: Key) -> Option<Key> {
        if server == 0 {
            self.server.from(key)
        } else {
            None
        }
    }

    fn capacity(&mut self, server: usize) -> u32 {
        if server == 0 {
            self.server.capacity()
        } else {
            0
        }
    }

    fn free(&mut self, server: usize) -> u32 {
        if server == 0 { self.server.free() } else { 0 }
    }
}
