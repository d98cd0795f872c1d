// The three ends of a ticket.
ghost use Rattle.std.specs.Prelude.{◌≡◌, IfOk, IfErr};
ghost use Rattle.std.specs.Option.{option_map};
ghost use Rattle.std.specs.Result.{result_err};
ghost use Rattle.open_stripe.specs.Means.{open_of};
ghost use Rattle.clients.specs.Means.{clients_of, ticket_of};
ghost use Rattle.clients.specs.Turns.{client_in, turn_refusal, stripe_held, with_turn};
ghost use Rattle.clients.specs.declared.turn.Turn.TheVariants.{Park, End};

use crate::list::Clients;
use crate::ticket::Ticket;
use crate::turn::Turn;
use open_stripe::open::OpenStripe;
use rack::fault::FaultCause;
use row::row::ServerRow;

impl<R: ServerRow> Ticket<R> {
    // Sets the stripe aside. A refusal hands the ticket back.
    pub fn park(self, clients: &mut Clients) -> Result<(), (Ticket<R>, FaultCause)>
        ensures refusal { let t = ticket_of self in option_map (λ e. e.1) (result_err result) ≡ turn_refusal (client_in (clients_of clients.old) t.client) (Park t.begun) }
        ensures back { IfErr result (λ e. e.0 ≡ self) }
        ensures after { let t = ticket_of self in clients_of clients.new ≡ with_turn (clients_of clients.old) t.client (Park t.begun) }
    {
        match clients.turn(self.client, Turn::Park(self.begun)) {
            Ok(_) => {
                self.spend();
                Ok(())
            }
            Err(cause) => Err((self, cause)),
        }
    }

    // Takes the stripe out, for a seal, and leaves the client idle. A refusal hands the ticket back.
    pub fn end(self, clients: &mut Clients) -> Result<OpenStripe, (Ticket<R>, FaultCause)>
        ensures refusal { let t = ticket_of self in option_map (λ e. e.1) (result_err result) ≡ turn_refusal (client_in (clients_of clients.old) t.client) (End t.begun) }
        ensures back { IfErr result (λ e. e.0 ≡ self) }
        ensures stripe { let t = ticket_of self in IfOk result (λ s. open_of s ≡ stripe_held t.begun (client_in (clients_of clients.old) t.client)) }
        ensures after { let t = ticket_of self in clients_of clients.new ≡ with_turn (clients_of clients.old) t.client (End t.begun) }
    {
        match clients.turn(self.client, Turn::End(self.begun)) {
            Ok(turned) => {
                self.spend();
                Ok(turned.ended.unwrap())
            }
            Err(cause) => Err((self, cause)),
        }
    }

    // Drops the stripe, and leaves the client idle. The ticket is spent, refused or not.
    pub fn withdraw(self, clients: &mut Clients) -> Result<(), FaultCause>
        ensures refusal { let t = ticket_of self in result_err result ≡ turn_refusal (client_in (clients_of clients.old) t.client) (End t.begun) }
        ensures after { let t = ticket_of self in clients_of clients.new ≡ with_turn (clients_of clients.old) t.client (End t.begun) }
    {
        let ended = clients.turn(self.client, Turn::End(self.begun));
        self.spend();
        ended?;
        Ok(())
    }

    fn spend(self) {
        let Ticket {
            client: _,
            begun: _,
            row: _,
        } = self;
    }
}
