// The open stripe of a client: the slots filled so far, and the stripes that they were copied from.
#![tactic(auto)]

pub mod newest;
pub mod open;
pub mod pick;
pub mod sources;
