// The eight clients of a rack's service.
#![tactic(auto)]

pub mod list;
pub mod newest;
pub mod number;
pub mod state;
pub mod ticket;
pub mod turn;
pub mod visit;
