// The states of the eight clients, in one list. A call changes one of them.
use crate::state::ClientState;

mod calls;
mod looks;

const LENGTH: usize = 8;

#[derive(Drop)]
pub struct Clients {
    states: [ClientState; LENGTH],
}
