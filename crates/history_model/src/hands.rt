// Who holds which tickets, by the answers alone.
use service_model::call::{Answer, Call, Ticket};
use service_model::world::CLIENTS;
use std::alloc::{AllocError, Global};

#[derive(Drop)]
pub struct Hands {
    // For each client its ticket, if it holds one.
    pub tickets: Vec<Option<Ticket>>,
    // Tickets that are no longer good, and that have no namesake.
    pub stale: Vec<Ticket>,
    // How many begins were accepted since the last cut.
    pub begun: u64,
}

// The ticket that the call takes for good when it is accepted.
fn spent(call: &Call) -> Option<Ticket> {
    match *call {
        Call::Park { ticket } => Some(ticket),
        Call::Seal { ticket, .. } => Some(ticket),
        Call::Withdraw { ticket } => Some(ticket),
        _ => None,
    }
}

impl Hands {
    pub fn new(heap: Global) -> Result<Hands, AllocError> {
        let mut tickets = Vec::new(heap);
        for _ in 0..CLIENTS {
            tickets.push(None)?;
        }
        Ok(Hands {
            tickets,
            stale: Vec::new(heap),
            begun: 0,
        })
    }

    pub fn ticket(&self, client: u8) -> Option<Ticket> {
        self.tickets.get(usize::from(client)).copied().flatten()
    }

    fn set(&mut self, client: u8, ticket: Option<Ticket>) {
        if let Some(one) = self.tickets.get_mut(usize::from(client)) {
            *one = ticket;
        }
    }

    fn let_go(&mut self, ticket: Ticket) -> Result<(), AllocError> {
        if self.ticket(ticket.client) == Some(ticket) {
            self.set(ticket.client, None);
            self.stale.push(ticket)?;
        }
        Ok(())
    }

    // An accepted restart makes every ticket stale.
    fn all_stale(&mut self) -> Result<(), AllocError> {
        for client in 0..CLIENTS {
            if let Some(ticket) = self.ticket(client) {
                self.let_go(ticket)?;
            }
        }
        Ok(())
    }

    // A cut takes every ticket, since begin numbers start again.
    fn lose_all(&mut self) {
        for client in 0..CLIENTS {
            self.set(client, None);
        }
        self.stale.clear();
        self.begun = 0;
    }

    fn take_up(&mut self, call: &Call, ticket: Ticket) {
        self.set(ticket.client, Some(ticket));
        if let Call::Begin { .. } = *call {
            self.begun = self.begun.saturating_add(1);
        }
    }

    pub fn note(&mut self, call: &Call, answer: &Answer) -> Result<(), AllocError> {
        match *answer {
            Answer::Ticket(ticket) => self.take_up(call, ticket),
            Answer::Cut => self.lose_all(),
            Answer::Counting(_) => self.all_stale()?,
            Answer::Done | Answer::Behind(_) => {
                if let Some(ticket) = spent(call) {
                    self.let_go(ticket)?;
                }
            }
            _ => {}
        }
        Ok(())
    }
}
