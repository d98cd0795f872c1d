// Looking at the clients of the list.
ghost use Rattle.std.specs.Prelude.{◌≡◌, map};
ghost use Rattle.std.specs.Option.{option_map};
ghost use Rattle.rack.specs.Opening.{held_as};
ghost use Rattle.open_stripe.specs.Means.{open_of};
ghost use Rattle.clients.specs.Means.{client_of, clients_of};
ghost use Rattle.clients.specs.Turns.{client_in};

use crate::list::Clients;
use crate::number::ClientNumber;
use crate::state::ClientState;
use open_stripe::open::OpenStripe;

impl Clients {
    // The states of the clients, in order.
    pub fn states(&self) -> &[ClientState]
        ensures { map client_of result.now ≡ clients_of self.now }
    {
        &self.states[..]
    }

    pub fn state(&self, client: ClientNumber) -> &ClientState
        ensures { client_of result.now ≡ client_in (clients_of self.now) client.number }
    {
        &self.states[client.get() as usize]
    }

    // The open stripe that the client holds under this begin number, if it does.
    pub fn held(&self, client: ClientNumber, begun: u32) -> Option<&OpenStripe>
        ensures { option_map (λ s. open_of s.now) result ≡ held_as begun (client_in (clients_of self.now) client.number) }
    {
        match self.state(client) {
            ClientState::Held(open) if open.begun() == begun => Some(open),
            _ => None,
        }
    }
}
