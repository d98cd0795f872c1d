// A fragment server: a fixed capacity, and a map from keys to fragments.
use crate::codec::Bytes;
use crate::fault::ServerFault;
use crate::key::Key;
use std::alloc::{AllocError, Global};
use std::collections::BTreeMap;

#[derive(Drop)]
pub struct Server {
    pub capacity: u32,
    pub held: BTreeMap<Key, Bytes>,
}

impl Server {
    pub fn new(heap: Global, capacity: u32) -> Server {
        Server {
            capacity,
            held: BTreeMap::new(heap),
        }
    }

    pub fn holds(&self, key: Key) -> bool {
        self.held.contains_key(&key)
    }

    // How many more keys it takes.
    pub fn free(&self) -> u64 {
        u64::from(self.capacity).saturating_sub(self.held.len() as u64)
    }

    pub fn fetch(&self, key: Key) -> Result<Bytes, ServerFault> {
        self.held.get(&key).copied().ok_or(ServerFault::Absent)
    }

    // Adds a key; a server that refuses stays as it was.
    pub fn store(
        &mut self,
        key: Key,
        bytes: &Bytes,
    ) -> Result<Result<(), ServerFault>, AllocError> {
        if self.holds(key) {
            return Ok(Err(ServerFault::Held));
        }
        if self.free() == 0 {
            return Ok(Err(ServerFault::Full));
        }
        self.held.insert(key, *bytes)?;
        Ok(Ok(()))
    }

    pub fn delete(&mut self, key: Key) -> Result<(), ServerFault> {
        match self.held.remove(&key) {
            Some(_) => Ok(()),
            None => Err(ServerFault::Absent),
        }
    }

    pub fn wipe(&mut self) {
        self.held.clear();
    }
}
