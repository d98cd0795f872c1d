// Changing one client of the list, or all.
ghost use Rattle.std.specs.Prelude.{◌≡◌, IfOk, replicate};
ghost use Rattle.std.specs.Option.{option_map};
ghost use Rattle.std.specs.Result.{result_err};
ghost use Rattle.geometry.specs.Keys.{number_of};
ghost use Rattle.rack.specs.Worlds.{Idle, clients_count};
ghost use Rattle.open_stripe.specs.Means.{open_of};
ghost use Rattle.clients.specs.Means.{clients_of};
ghost use Rattle.clients.specs.Turns.{client_in, turn_refusal, turned_stripe, taken_out, with_turn};
ghost use Rattle.clients.specs.Filling.{fill_refusal, with_fill, note_refusal, with_note};

use crate::list::{Clients, LENGTH};
use crate::number::ClientNumber;
use crate::state::ClientState;
use crate::turn::{Turn, Turned};
use fragment::delta::Delta;
use geometry::key::Key;
use geometry::row::RowLength;
use geometry::sizes::Block;
use rack::fault::FaultCause;
use std::mem;

const IDLE: ClientState = ClientState::Idle;

impl Clients {
    // Every client is idle.
    pub fn new() -> Clients
        ensures { clients_of result ≡ replicate clients_count Idle }
    {
        Clients {
            states: [IDLE; LENGTH],
        }
    }

    // Makes every client idle; open stripes are dropped.
    pub fn clear(&mut self)
        ensures { clients_of self.new ≡ replicate clients_count Idle }
    {
        *self = Clients::new();
    }

    // The client takes a turn. A refused turn changes nothing.
    #[tactic(auto, using(crate::proofs::Changes::written_over))]
    pub fn turn(&mut self, client: ClientNumber, turn: Turn) -> Result<Turned, FaultCause>
        ensures refusal { result_err result ≡ turn_refusal (client_in (clients_of self.old) client.number) turn }
        ensures begun { IfOk result (λ t. t.begun ≡ (turned_stripe (client_in (clients_of self.old) client.number) turn).begun) }
        ensures ended { IfOk result (λ t. option_map open_of t.ended ≡ taken_out (client_in (clients_of self.old) client.number) turn) }
        ensures after { clients_of self.new ≡ with_turn (clients_of self.old) client.number turn }
    {
        let place = client.get() as usize;
        let state = mem::replace(&mut self.states[place], ClientState::Idle);
        let (state, answer) = state.turned(turn);
        self.states[place] = state;
        answer
    }

    // Fills the next slot of the stripe that the client holds under this begin number.
    #[tactic(auto, using(crate::proofs::Changes::written_over))]
    pub fn fill(
        &mut self,
        client: ClientNumber,
        begun: u32,
        row: RowLength,
        delta: Delta,
        block: &Block,
    ) -> Result<(), FaultCause>
        ensures refusal { result_err result ≡ fill_refusal row.servers delta begun (client_in (clients_of self.old) client.number) }
        ensures after { clients_of self.new ≡ with_fill (clients_of self.old) client.number begun row.servers delta block.now }
    {
        match &mut self.states[client.get() as usize] {
            ClientState::Held(open) => {
                if open.begun() != begun {
                    return Err(FaultCause::Stale);
                }
                open.fill(row, delta, block).or(Err(FaultCause::StripeFull))
            }
            _ => Err(FaultCause::Stale),
        }
    }
    // Notes a source of that stripe.
    #[tactic(auto, using(crate::proofs::Changes::written_over))]
    pub fn note(&mut self, client: ClientNumber, begun: u32, key: Key) -> Result<(), FaultCause>
        ensures refusal { result_err result ≡ note_refusal begun (client_in (clients_of self.old) client.number) }
        ensures after { clients_of self.new ≡ with_note (clients_of self.old) client.number begun (number_of key) }
    {
        match &mut self.states[client.get() as usize] {
            ClientState::Held(open) => {
                if open.begun() != begun {
                    return Err(FaultCause::Stale);
                }
                open.note(key).or(Err(FaultCause::StripeFull))
            }
            _ => Err(FaultCause::Stale),
        }
    }
}
