// Begin, park, pick up and withdraw: who fills which open stripe.
use crate::call::{Answer, Ticket};
use crate::checks::must_be_client;
use crate::client::{Client, OpenStripe};
use crate::stop::{Stop, refused};
use crate::world::{AFTER_LAST, World};
use rack_model::fault::{Cause, Place};

impl World {
    pub(crate) fn begin(&mut self, client: u8) -> Result<Answer, Stop> {
        self.must_be_warm()?;
        must_be_client(client)?;
        if !matches!(self.service.client(client), Some(Client::Idle)) {
            return Err(refused(Cause::Busy, Place::Client(client)));
        }
        let next = self.service.next_begin;
        let Ok(begin) = u32::try_from(next) else {
            return Err(refused(Cause::Spent, Place::Client(client)));
        };
        let open = OpenStripe::new(self.heap);
        self.service
            .set_client(client, Client::Held { begin, open });
        self.service.next_begin = next.saturating_add(1);
        Ok(Answer::Ticket(Ticket { client, begin }))
    }

    pub(crate) fn park(&mut self, ticket: Ticket) -> Result<Answer, Stop> {
        self.must_be_warm()?;
        must_be_client(ticket.client)?;
        self.must_hold(ticket)?;
        if let Some(client) = self.service.clients.get_mut(usize::from(ticket.client)) {
            client.park();
        }
        Ok(Answer::Done)
    }

    pub(crate) fn pick_up(&mut self, client: u8) -> Result<Answer, Stop> {
        self.must_be_warm()?;
        must_be_client(client)?;
        let state = self.service.clients.get_mut(usize::from(client));
        match state.and_then(|one| one.pick_up()) {
            Some(begin) => Ok(Answer::Ticket(Ticket { client, begin })),
            None => Err(refused(Cause::Stale, Place::Client(client))),
        }
    }

    pub(crate) fn withdraw(&mut self, ticket: Ticket) -> Result<Answer, Stop> {
        self.must_be_warm()?;
        must_be_client(ticket.client)?;
        self.must_hold(ticket)?;
        self.service.set_client(ticket.client, Client::Idle);
        Ok(Answer::Done)
    }
}
