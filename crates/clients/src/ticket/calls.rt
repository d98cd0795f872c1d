// Getting a ticket, and filling its stripe.
ghost use Rattle.std.specs.Prelude.{◌≡◌, IfOk};
ghost use Rattle.std.specs.Result.{result_err};
ghost use Rattle.geometry.specs.Keys.{number_of};
ghost use Rattle.clients.specs.Means.{clients_of, ticket_of};
ghost use Rattle.clients.specs.Turns.{client_in, turn_refusal, turned_stripe, with_turn};
ghost use Rattle.clients.specs.Filling.{fill_refusal, with_fill, note_refusal, with_note};
ghost use Rattle.clients.specs.declared.turn.Turn.TheVariants.{Begin, PickUp};

use crate::list::Clients;
use crate::number::ClientNumber;
use crate::ticket::Ticket;
use crate::turn::Turn;
use fragment::delta::Delta;
use geometry::key::Key;
use geometry::row::RowLength;
use geometry::sizes::Block;
use rack::fault::FaultCause;
use row::row::ServerRow;
use std::marker::PhantomData;

impl<R: ServerRow> Ticket<R> {
    // An idle client begins a stripe under this begin number.
    pub fn begin(
        clients: &mut Clients,
        client: ClientNumber,
        begun: u32,
    ) -> Result<Ticket<R>, FaultCause>
        ensures refusal { result_err result ≡ turn_refusal (client_in (clients_of clients.old) client.number) (Begin begun) }
        ensures ticket { IfOk result (λ t. ticket_of t ≡ record { client = client.number; begun = begun }) }
        ensures after { clients_of clients.new ≡ with_turn (clients_of clients.old) client.number (Begin begun) }
    {
        clients.turn(client, Turn::Begin(begun))?;
        Ok(Ticket {
            client,
            begun,
            row: PhantomData,
        })
    }

    // The ticket of a parked stripe, again.
    pub fn pick_up(clients: &mut Clients, client: ClientNumber) -> Result<Ticket<R>, FaultCause>
        ensures refusal { result_err result ≡ turn_refusal (client_in (clients_of clients.old) client.number) PickUp }
        ensures ticket { IfOk result (λ t. ticket_of t ≡ record { client = client.number; begun = (turned_stripe (client_in (clients_of clients.old) client.number) PickUp).begun }) }
        ensures after { clients_of clients.new ≡ with_turn (clients_of clients.old) client.number PickUp }
    {
        let begun = clients.turn(client, Turn::PickUp)?.begun;
        Ok(Ticket {
            client,
            begun,
            row: PhantomData,
        })
    }

    pub fn client(&self) -> ClientNumber
        ensures { result ≡ self.now.client }
    {
        self.client
    }

    pub fn begun(&self) -> u32
        ensures { result ≡ self.now.begun }
    {
        self.begun
    }

    // Fills the next slot of the stripe.
    pub fn fill(
        &self,
        clients: &mut Clients,
        row: RowLength,
        delta: Delta,
        block: &Block,
    ) -> Result<(), FaultCause>
        ensures refusal { let t = ticket_of self.now in result_err result ≡ fill_refusal row.servers delta t.begun (client_in (clients_of clients.old) t.client) }
        ensures after { let t = ticket_of self.now in clients_of clients.new ≡ with_fill (clients_of clients.old) t.client t.begun row.servers delta block.now }
    {
        clients.fill(self.client, self.begun, row, delta, block)
    }
    // Notes a source of the stripe.
    pub fn note(&self, clients: &mut Clients, key: Key) -> Result<(), FaultCause>
        ensures refusal { let t = ticket_of self.now in result_err result ≡ note_refusal t.begun (client_in (clients_of clients.old) t.client) }
        ensures after { let t = ticket_of self.now in clients_of clients.new ≡ with_note (clients_of clients.old) t.client t.begun (number_of key) }
    {
        clients.note(self.client, self.begun, key)
    }
}
