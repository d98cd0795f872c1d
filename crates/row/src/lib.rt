// Rows of servers, and changes made to them one at a time.
#![tactic(auto)]

pub mod beside;
pub mod change;
pub mod one;
pub mod row;
