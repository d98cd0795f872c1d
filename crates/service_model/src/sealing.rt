// Seal: an open stripe goes to the servers, and its sources go from them.
use crate::call::{Answer, Ticket};
use crate::checks::{must_be_client, torn};
use crate::client::Client;
use crate::row::Change;
use crate::stop::{Stop, refused};
use crate::table::{PlacedSlot, placed};
use crate::world::World;
use rack_model::fault::{Cause, Place, ServerFault};
use rack_model::key::Key;
use rack_model::slot::Slot;
use rack_model::stripe::fragment_on;
use std::alloc::AllocError;

// What a seal is about to do. A stripe with no filled slot has no key.
#[derive(Drop)]
struct Sealing {
    key: Option<Key>,
    slots: Vec<Slot>,
    placed: Vec<PlacedSlot>,
    sources: Vec<Key>,
}

impl World {
    // The name of the client's next stripe.
    fn next_key(&self, client: u8) -> Result<Key, Stop> {
        match u32::try_from(self.service.next_stripe(client)) {
            Ok(stripe) => Ok(Key { client, stripe }),
            Err(_) => Err(refused(Cause::Spent, Place::Client(client))),
        }
    }

    // All clients but the cleaner leave a place free on each server.
    fn must_have_place(&self, client: u8) -> Result<(), Stop> {
        let wanted = if client == 0 { 1 } else { 2 };
        for server in self.in_use()?.iter() {
            if self.row.free(*server) < wanted {
                return Err(refused(Cause::Full, Place::Server(*server)));
            }
        }
        Ok(())
    }

    fn must_have_entries(&self, client: u8, slots: &[Slot]) -> Result<(), Stop> {
        let anywhere = Key { client, stripe: 0 };
        let placed = placed(self.heap, anywhere, slots)?;
        if self.table.has_room(self.heap, &placed)? {
            return Ok(());
        }
        Err(refused(Cause::TableFull, Place::Nowhere))
    }

    // The key must be new on each server in use, and the sources there.
    fn must_be_ready(&self, key: Option<Key>, sources: &[Key]) -> Result<(), Stop> {
        for server in self.in_use()?.iter() {
            if let Some(new) = key
                && self.row.holds(*server, new)
            {
                return Err(torn(ServerFault::Held, *server, new));
            }
            for source in sources {
                self.must_stand(&[*server], *source)?;
            }
        }
        Ok(())
    }

    // All checks of a seal.
    fn sealing(&self, ticket: Ticket) -> Result<Sealing, Stop> {
        self.must_be_warm()?;
        must_be_client(ticket.client)?;
        let open = self.must_hold(ticket)?;
        let mut key = None;
        if !open.slots.is_empty() {
            self.must_have_place(ticket.client)?;
            self.must_have_entries(ticket.client, &open.slots)?;
            key = Some(self.next_key(ticket.client)?);
        }
        self.must_be_ready(key, &open.sources)?;
        let placed = match key {
            Some(new) => placed(self.heap, new, &open.slots)?,
            None => Vec::new(self.heap),
        };
        let slots = open.slots.clone()?;
        let sources = open.sources.clone()?;
        Ok(Sealing {
            key,
            slots,
            placed,
            sources,
        })
    }

    fn seal_changes(&self, sealing: &Sealing) -> Result<Vec<Change>, AllocError> {
        let servers = self.servers();
        let in_use = self.in_use()?;
        let mut changes = Vec::new(self.heap);
        if let Some(key) = sealing.key {
            for server in in_use.iter() {
                let server = *server;
                let bytes = fragment_on(servers, key, server, &sealing.slots);
                changes.push(Change::Store { server, key, bytes })?;
            }
        }
        for source in sealing.sources.iter() {
            for server in in_use.iter() {
                let server = *server;
                changes.push(Change::Delete {
                    server,
                    key: *source,
                })?;
            }
        }
        Ok(changes)
    }

    pub(crate) fn seal(&mut self, ticket: Ticket, budget: u64) -> Result<Answer, Stop> {
        let sealing = self.sealing(ticket)?;
        let changes = self.seal_changes(&sealing)?;
        self.make_all(&changes, budget)?;
        let behind = self.table.take_all(&sealing.placed)?;
        if let Some(key) = sealing.key {
            let next = u64::from(key.stripe).saturating_add(1);
            self.service.set_next_stripe(key.client, next);
        }
        self.service.set_client(ticket.client, Client::Idle);
        Ok(Answer::Behind(behind))
    }
}
