// Write and trim: the next slot of an open stripe.
use crate::call::{Answer, Ticket};
use crate::checks::must_be_client;
use crate::stop::{Stop, refused};
use crate::world::World;
use rack_model::fault::{Cause, Place};
use rack_model::key::BlockId;
use rack_model::placement::stripe_slots;
use rack_model::slot::{Content, Delta, Kind, NO_CONTENT, Pair, Slot};

impl World {
    // How many slots of the ticket's stripe are empty.
    pub(crate) fn empty_slots(&self, ticket: Ticket) -> Result<usize, Stop> {
        let open = self.must_hold(ticket)?;
        Ok(stripe_slots(self.servers()).saturating_sub(open.slots.len()))
    }

    // Adds filled slots and sources to the ticket's stripe.
    pub(crate) fn fill(&mut self, ticket: Ticket, slot: Slot) -> Result<(), Stop> {
        let client = self.service.clients.get_mut(usize::from(ticket.client));
        if let Some(open) = client.and_then(|one| one.held_mut(ticket.begin)) {
            open.slots.push(slot)?;
        }
        Ok(())
    }

    fn fill_next(
        &mut self,
        ticket: Ticket,
        kind: Kind,
        block: BlockId,
        content: Content,
    ) -> Result<Answer, Stop> {
        let place = Place::Client(ticket.client);
        self.must_be_warm()?;
        must_be_client(ticket.client)?;
        if ticket.client == 0 {
            return Err(refused(Cause::BadClient, place));
        }
        if self.empty_slots(ticket)? == 0 {
            return Err(refused(Cause::StripeFull, place));
        }
        let next = self.service.next_version;
        let Ok(version) = u32::try_from(next) else {
            return Err(refused(Cause::Spent, place));
        };
        let pair = Pair { version, moves: 0 };
        let delta = Delta { kind, block, pair };
        self.fill(ticket, Slot { delta, content })?;
        self.service.next_version = next.saturating_add(1);
        Ok(Answer::Version(version))
    }

    pub(crate) fn write(
        &mut self,
        ticket: Ticket,
        block: BlockId,
        content: Content,
    ) -> Result<Answer, Stop> {
        self.fill_next(ticket, Kind::Write, block, content)
    }

    pub(crate) fn trim(&mut self, ticket: Ticket, block: BlockId) -> Result<Answer, Stop> {
        self.fill_next(ticket, Kind::Trim, block, NO_CONTENT)
    }
}
