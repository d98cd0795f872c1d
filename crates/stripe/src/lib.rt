// A stripe: N − 1 data fragments and their parity, one to a server of the row.
#![tactic(auto)]

pub mod buffer;
pub mod examples;
pub mod fault;
pub mod image;
mod slots;
