// A fragment server that keeps its fragments in an ordered table, over memory handed in.
#![tactic(auto)]

pub mod shelf;
