// One ordered table over lent memory, for every element that gives a number, and the laws of
// ordered maps.
#![tactic(auto)]

pub mod fault;
pub mod keyed;
pub mod laws;
pub mod lent;
pub mod table;
