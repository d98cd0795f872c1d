// Two rows side by side: the left row's numbers come first, and the right row's go on from them.
// The left row is counted up to 2^64 − 1. Servers that it had beyond that would have no number.
ghost use Rattle.row.specs.Rows.{count, beside, BySide, OnSide, beside_sound};

use crate::row::ServerRow;
use geometry::key::Key;
use geometry::sizes::Fragment;
use ordered::fault::MapFault;

#[derive(Drop)]
pub struct Beside<X, Y> {
    pub left: X,
    pub right: Y,
}

impl<X: ServerRow, Y: ServerRow> Beside<X, Y> {
    // The server's number in the right row, if it is not in the left one.
    fn in_right(&self, server: usize) -> Option<usize>
        ensures { OnSide (X.ServerRow.meanings self.now.left) (Y.ServerRow.meanings self.now.right) server result }
    {
        server.checked_sub(self.left.len())
    }
}

impl<X: ServerRow, Y: ServerRow> ServerRow for Beside<X, Y> {
    ghost meanings = { λ r. beside (X.ServerRow.meanings r.left) (Y.ServerRow.meanings r.right) };

    ghost sound = { λ r. beside_sound (X.ServerRow.meanings r.left) (Y.ServerRow.meanings r.right) (X.ServerRow.sound r.left) (Y.ServerRow.sound r.right) };

    ghost coherent = { λ r s. BySide (count (X.ServerRow.meanings r.left)) (X.ServerRow.coherent r.left) (Y.ServerRow.coherent r.right) s };

    fn len(&self) -> usize {
        self.left.len().saturating_add(self.right.len())
    }

    fn store(&mut self, server: usize, key: Key, bytes: &Fragment) -> Result<(), MapFault> {
        match self.in_right(server) {
            None => self.left.store(server, key, bytes),
            Some(right) => self.right.store(right, key, bytes),
        }
    }

    fn fetch(&mut self, server: usize, key: Key, out: &mut Fragment) -> Result<(), MapFault> {
        match self.in_right(server) {
            None => self.left.fetch(server, key, out),
            Some(right) => self.right.fetch(right, key, out),
        }
    }

    fn delete(&mut self, server: usize, key: Key) -> Result<(), MapFault> {
        match self.in_right(server) {
            None => self.left.delete(server, key),
            Some(right) => self.right.delete(right, key),
        }
    }

    fn wipe(&mut self, server: usize) {
        match self.in_right(server) {
            None => self.left.wipe(server),
            Some(right) => self.right.wipe(right),
        }
    }

    fn holds(&mut self, server: usize, key: Key) -> bool {
        match self.in_right(server) {
            None => self.left.holds(server, key),
            Some(right) => self.right.holds(right, key),
        }
    }

    fn from(&mut self, server: usize, key: Key) -> Option<Key> {
        match self.in_right(server) {
            None => self.left.from(server, key),
            Some(right) => self.right.from(right, key),
        }
    }

    fn capacity(&mut self, server: usize) -> u32 {
        match self.in_right(server) {
            None => self.left.capacity(server),
            Some(right) => self.right.capacity(right),
        }
    }

    fn free(&mut self, server: usize) -> u32 {
        match self.in_right(server) {
            None => self.left.free(server),
            Some(right) => self.right.free(right),
        }
    }
}
