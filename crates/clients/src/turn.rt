// What a client can do with its state: every state and every turn in one place.
ghost use Rattle.std.specs.Prelude.{◌≡◌, IfOk};
ghost use Rattle.std.specs.Option.{option_map};
ghost use Rattle.std.specs.Result.{result_err};
ghost use Rattle.open_stripe.specs.Means.{open_of};
ghost use Rattle.clients.specs.Means.{client_of};
ghost use Rattle.clients.specs.Turns.{turn_refusal, turned_to, turned_stripe, taken_out, unless_refused};

use crate::state::ClientState;
use open_stripe::open::OpenStripe;
use rack::fault::FaultCause;

// A stripe is named by its begin number, for a park as for an end. A seal and a withdraw both end it.
#[derive(Clone, Copy, PartialEq, Eq, Debug)]
pub enum Turn {
    Begin(u32),
    Park(u32),
    PickUp,
    End(u32),
}

// The begin number of the stripe, and the stripe itself where this is its end.
#[derive(Drop)]
pub struct Turned {
    pub begun: u32,
    pub ended: Option<OpenStripe>,
}

impl ClientState {
    // The state after a turn, and what the turn gives. A refused turn leaves the state.
    pub(crate) fn turned(self, turn: Turn) -> (ClientState, Result<Turned, FaultCause>)
        ensures after { client_of result.0 ≡ unless_refused (turn_refusal (client_of self) turn) (client_of self) (turned_to (client_of self) turn) }
        ensures refusal { result_err result.1 ≡ turn_refusal (client_of self) turn }
        ensures begun { IfOk result.1 (λ t. t.begun ≡ (turned_stripe (client_of self) turn).begun) }
        ensures ended { IfOk result.1 (λ t. option_map open_of t.ended ≡ taken_out (client_of self) turn) }
    {
        match (self, turn) {
            (ClientState::Idle, Turn::Begin(begun)) => {
                (ClientState::Held(OpenStripe::new(begun)), kept(begun))
            }
            (state, Turn::Begin(_)) => (state, Err(FaultCause::Busy)),
            (ClientState::Held(open), Turn::Park(begun)) => {
                if open.begun() != begun {
                    return (ClientState::Held(open), Err(FaultCause::Stale));
                }
                (ClientState::Parked(open), kept(begun))
            }
            (ClientState::Parked(open), Turn::PickUp) => {
                let begun = open.begun();
                (ClientState::Held(open), kept(begun))
            }
            (ClientState::Held(open), Turn::End(begun)) => {
                if open.begun() != begun {
                    return (ClientState::Held(open), Err(FaultCause::Stale));
                }
                let ended = Some(open);
                (ClientState::Idle, Ok(Turned { begun, ended }))
            }
            (state, _) => (state, Err(FaultCause::Stale)),
        }
    }
}

// The client keeps the stripe.
fn kept(begun: u32) -> Result<Turned, FaultCause>
    ensures { result ≡ Ok (record { begun = begun; ended = None }) }
{
    Ok(Turned { begun, ended: None })
}
