// What the service does with the manager's table, which its caller lends: finding entries, taking
// those of a sealed stripe, and telling which slots are live.
#![tactic(auto)]

pub mod finding;
pub mod fresh;
pub mod live;
pub mod pointing;
pub mod taking;
