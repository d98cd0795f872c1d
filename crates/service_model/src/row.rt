// The servers side by side. Which of them is out is said at each question.
use rack_model::codec::{Bytes, EMPTY};
use rack_model::fault::ServerFault;
use rack_model::key::Key;
use rack_model::parity::add_into;
use rack_model::server::Server;
use std::alloc::{AllocError, Global};
use std::collections::BTreeSet;

// A change to a server.
#[derive(Clone, Copy)]
pub enum Change {
    Store { server: u8, key: Key, bytes: Bytes },
    Delete { server: u8, key: Key },
    Wipe { server: u8 },
}

#[derive(Drop)]
pub struct Row {
    pub servers: Vec<Server>,
}

impl Row {
    // How many servers there are, at most 255.
    pub fn length(&self) -> u8 {
        u8::try_from(self.servers.len()).unwrap_or(255)
    }

    pub fn server(&self, server: u8) -> Option<&Server> {
        self.servers.get(usize::from(server))
    }

    pub fn holds(&self, server: u8, key: Key) -> bool {
        self.server(server).is_some_and(|one| one.holds(key))
    }

    // How many more keys this server takes.
    pub fn free(&self, server: u8) -> u64 {
        self.server(server).map_or(0, |one| one.free())
    }

    // The servers that are not out, ascending.
    pub fn in_use(&self, heap: Global, out: Option<u8>) -> Result<Vec<u8>, AllocError> {
        let mut all = Vec::new(heap);
        for server in 0..self.length() {
            if out != Some(server) {
                all.push(server)?;
            }
        }
        Ok(all)
    }

    // The keys that any of these servers holds, in order.
    pub fn keys(&self, heap: Global, servers: &[u8]) -> Result<Vec<Key>, AllocError> {
        let mut keys = BTreeSet::new(heap);
        for server in servers {
            if let Some(one) = self.server(*server) {
                for key in one.held.keys() {
                    keys.insert(*key)?;
                }
            }
        }
        let mut all = Vec::new(heap);
        for key in keys.iter() {
            all.push(*key)?;
        }
        Ok(all)
    }

    // How many of these servers hold the key.
    pub fn holders(&self, servers: &[u8], key: Key) -> u8 {
        let mut count = 0u8;
        for server in servers {
            if self.holds(*server, key) {
                count = count.saturating_add(1);
            }
        }
        count
    }

    // What the fragment of this server is, by those of all others.
    pub fn put_together(&self, server: u8, key: Key) -> Bytes {
        let mut sum = EMPTY;
        for other in 0..self.length() {
            let fragment = self.server(other).and_then(|one| one.held.get(&key));
            if let Some(bytes) = fragment
                && other != server
            {
                add_into(&mut sum, bytes);
            }
        }
        sum
    }

    // The fragment of this server: its own if it is in use and holds it, else put together.
    pub fn fragment(&self, out: Option<u8>, server: u8, key: Key) -> Bytes {
        match self.server(server).map(|one| one.fetch(key)) {
            Some(Ok(bytes)) if out != Some(server) => bytes,
            _ => self.put_together(server, key),
        }
    }

    // Makes one change. The servers' own refusals do not come: the calls look first.
    pub fn make(&mut self, change: &Change) -> Result<Result<(), ServerFault>, AllocError> {
        let number = match change {
            Change::Store { server, .. } => *server,
            Change::Delete { server, .. } => *server,
            Change::Wipe { server } => *server,
        };
        let Some(one) = self.servers.get_mut(usize::from(number)) else {
            return Ok(Ok(()));
        };
        match change {
            Change::Store { key, bytes, .. } => one.store(*key, bytes),
            Change::Delete { key, .. } => Ok(one.delete(*key)),
            Change::Wipe { .. } => {
                one.wipe();
                Ok(Ok(()))
            }
        }
    }
}
