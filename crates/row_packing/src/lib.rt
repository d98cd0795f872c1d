// Gate readings packed into stripes over a row of servers, and read back, with one server missing
// if need be.
#![tactic(auto)]

pub mod contents;
pub mod fault;
pub mod fetch;
pub mod index;
pub mod log;
mod note;
pub mod pack;
pub mod refill;
pub mod store;
pub mod unpack;
