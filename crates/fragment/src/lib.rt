// The bytes of a data fragment: a head, then three slots. Both layouts are read, only layout 2 is
// written.
#![tactic(auto)]

pub mod cause;
pub mod codec;
pub mod delta;
pub mod fault;
mod head;
pub mod layout;
pub mod name;
pub mod pair;
mod slot;
