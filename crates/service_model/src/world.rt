// A whole rack: its servers, the service above them, and the manager's table.
use crate::client::Client;
use crate::row::{Change, Row};
use crate::stop::Stop;
use crate::table::Table;
use rack_model::key::Key;
use rack_model::server::Server;
use std::alloc::{AllocError, Global};

pub const CLIENTS: u8 = 8;

// The number after the last version, stripe or begin number, as there is none.
pub const AFTER_LAST: u64 = 4294967296;

#[derive(Drop)]
pub struct Service {
    pub is_warm: bool,
    pub out: Option<u8>,
    pub clients: Vec<Client>,
    // For each client the number of its next stripe, or AFTER_LAST.
    pub next_stripes: Vec<u64>,
    pub next_version: u64,
    pub next_begin: u64,
}

#[derive(Drop)]
pub struct World {
    pub heap: Global,
    pub row: Row,
    pub service: Service,
    pub table: Table,
}

impl Service {
    // A new service is cold.
    pub fn new(heap: Global) -> Result<Service, AllocError> {
        let mut clients = Vec::new(heap);
        let mut next_stripes = Vec::new(heap);
        for _ in 0..CLIENTS {
            clients.push(Client::Idle)?;
            next_stripes.push(0)?;
        }
        Ok(Service {
            is_warm: false,
            out: None,
            clients,
            next_stripes,
            next_version: 1,
            next_begin: 1,
        })
    }

    pub fn client(&self, client: u8) -> Option<&Client> {
        self.clients.get(usize::from(client))
    }

    pub fn set_client(&mut self, client: u8, state: Client) {
        if let Some(one) = self.clients.get_mut(usize::from(client)) {
            *one = state;
        }
    }

    pub fn next_stripe(&self, client: u8) -> u64 {
        let next = self.next_stripes.get(usize::from(client));
        next.copied().unwrap_or(AFTER_LAST)
    }

    pub fn set_next_stripe(&mut self, client: u8, next: u64) {
        if let Some(one) = self.next_stripes.get_mut(usize::from(client)) {
            *one = next;
        }
    }

    pub fn all_idle(&mut self) {
        for client in self.clients.iter_mut() {
            *client = Client::Idle;
        }
    }
}

impl World {
    // Empty servers of these capacities under a new service, with a table for so many entries.
    pub fn new(heap: Global, capacities: &[u32], room: usize) -> Result<World, AllocError> {
        let mut servers = Vec::new(heap);
        for capacity in capacities {
            servers.push(Server::new(heap, *capacity))?;
        }
        Ok(World {
            heap,
            row: Row { servers },
            service: Service::new(heap)?,
            table: Table::new(heap, room),
        })
    }

    pub fn servers(&self) -> u8 {
        self.row.length()
    }

    // The servers in use, ascending.
    pub fn in_use(&self) -> Result<Vec<u8>, AllocError> {
        self.row.in_use(self.heap, self.service.out)
    }

    // The lowest server in use, alone; its keys are the sealed stripes.
    fn lowest_in_use(&self) -> Result<Vec<u8>, AllocError> {
        let mut lowest = self.in_use()?;
        lowest.truncate(1);
        Ok(lowest)
    }

    pub fn is_sealed(&self, key: Key) -> Result<bool, AllocError> {
        let lowest = self.lowest_in_use()?;
        Ok(self.row.holders(&lowest, key) == 1)
    }

    // The sealed stripes in key order.
    pub fn sealed(&self) -> Result<Vec<Key>, AllocError> {
        let lowest = self.lowest_in_use()?;
        self.row.keys(self.heap, &lowest)
    }

    // Makes the changes in order, as far as the budget goes. Where it ends before they do, the
    // servers keep what they have, and an empty table and a new, cold service follow.
    pub(crate) fn make_all(&mut self, changes: &[Change], budget: u64) -> Result<(), Stop> {
        let mut left = budget;
        for change in changes {
            if left == 0 {
                self.table.entries.clear();
                self.service = Service::new(self.heap)?;
                return Err(Stop::Cut);
            }
            let _ = self.row.make(change)?;
            left = left.saturating_sub(1);
        }
        Ok(())
    }
}
