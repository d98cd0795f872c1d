// The parts of a rack as plain values: keys, slots, fragments, servers, refusals. The model of the
// service stands on them. It takes nothing from the crates that it is held against: numbers, bytes
// and placement are stated here once more.
#![tactic(auto)]

pub mod codec;
pub mod fault;
pub mod key;
pub mod parity;
pub mod placement;
pub mod server;
pub mod slot;
pub mod stripe;
