// The way of a ticket, from its begin to its end.
ghost use Rattle.std.specs.Prelude.{◌≡◌, [], ◌∷◌, IfOk};
ghost use Rattle.std.specs.Result.{result_err};
ghost use Rattle.fragment.specs.Slots.{filled_with};
ghost use Rattle.rack.specs.Opening.{with_slots};
ghost use Rattle.open_stripe.specs.Means.{open_of};
ghost use Rattle.clients.specs.Means.{clients_of};
ghost use Rattle.clients.specs.Turns.{client_in, stripe_begun};
ghost use Rattle.clients.specs.Filling.{visit_refusal};

use crate::list::Clients;
use crate::number::ClientNumber;
use crate::ticket::Ticket;
use fragment::delta::Delta;
use geometry::row::RowLength;
use geometry::sizes::Block;
use open_stripe::open::OpenStripe;
use rack::fault::FaultCause;
use row::row::ServerRow;

// Begins a stripe, fills one slot and takes the stripe out again. Whatever is refused, every client
// is left as it was.
#[tactic(auto, using(crate::proofs::Changes::written_over))]
pub fn visit<R: ServerRow>(
    clients: &mut Clients,
    client: ClientNumber,
    begun: u32,
    row: RowLength,
    delta: Delta,
    block: &Block,
) -> Result<OpenStripe, FaultCause>
    ensures refusal { result_err result ≡ visit_refusal delta (client_in (clients_of clients.old) client.number) }
    ensures stripe { IfOk result (λ s. open_of s ≡ with_slots (stripe_begun begun) (filled_with delta block.now ∷ [])) }
    ensures after { clients_of clients.new ≡ clients_of clients.old }
{
    let ticket: Ticket<R> = Ticket::begin(clients, client, begun)?;
    if let Err(cause) = ticket.fill(clients, row, delta, block) {
        let _ = ticket.withdraw(clients);
        return Err(cause);
    }
    match ticket.end(clients) {
        Ok(stripe) => Ok(stripe),
        Err(refused) => {
            let (ticket, cause) = refused;
            let _ = ticket.withdraw(clients);
            Err(cause)
        }
    }
}
