// Reasons to refuse that several calls look for.
use crate::call::Ticket;
use crate::client::OpenStripe;
use crate::stop::{Stop, refused};
use crate::world::{CLIENTS, World};
use rack_model::fault::{Cause, Place, ServerFault};
use rack_model::key::Key;

impl World {
    pub(crate) fn must_be_warm(&self) -> Result<(), Stop> {
        if self.service.is_warm {
            return Ok(());
        }
        Err(refused(Cause::Cold, Place::Nowhere))
    }

    pub(crate) fn must_have_server(&self, server: u8) -> Result<(), Stop> {
        if server < self.servers() {
            return Ok(());
        }
        Err(refused(Cause::BadServer, Place::Nowhere))
    }

    // The open stripe of a ticket that is not stale.
    pub(crate) fn must_hold(&self, ticket: Ticket) -> Result<&OpenStripe, Stop> {
        let client = self.service.client(ticket.client);
        match client.and_then(|one| one.held(ticket.begin)) {
            Some(open) => Ok(open),
            None => Err(refused(Cause::Stale, Place::Client(ticket.client))),
        }
    }

    // Each of these servers must hold the key.
    pub(crate) fn must_stand(&self, servers: &[u8], key: Key) -> Result<(), Stop> {
        for server in servers {
            if !self.row.holds(*server, key) {
                return Err(torn(ServerFault::Absent, *server, key));
            }
        }
        Ok(())
    }
}

pub(crate) fn must_be_client(client: u8) -> Result<(), Stop> {
    if client < CLIENTS {
        return Ok(());
    }
    Err(refused(Cause::BadClient, Place::Client(client)))
}

pub(crate) fn torn(fault: ServerFault, server: u8, key: Key) -> Stop {
    refused(Cause::Torn(fault), Place::Fragment { server, key })
}
