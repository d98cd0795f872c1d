// What a client has: nothing, an open stripe whose ticket is out, or one that was set aside.
ghost use Rattle.std.specs.Prelude.{◌≡◌};
ghost use Rattle.std.specs.Option.{option_map};
ghost use Rattle.open_stripe.specs.Means.{open_of};
ghost use Rattle.clients.specs.Means.{client_of, stripe_of};

use open_stripe::open::OpenStripe;

#[derive(Drop)]
pub enum ClientState {
    Idle,
    Held(OpenStripe),
    Parked(OpenStripe),
}

impl ClientState {
    // The open stripe, held or parked.
    pub fn stripe(&self) -> Option<&OpenStripe>
        ensures { option_map (λ s. open_of s.now) result ≡ stripe_of (client_of self.now) }
    {
        match self {
            ClientState::Idle => None,
            ClientState::Held(stripe) | ClientState::Parked(stripe) => Some(stripe),
        }
    }
}
