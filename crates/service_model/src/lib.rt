// The rules of the service as a plain program over std's collections: what each call answers, or
// why it refuses, and what it leaves. It takes nothing from the crates that it is held against.
#![tactic(auto)]

pub mod call;
mod checks;
pub mod client;
mod gathering;
mod reading;
mod rebuilding;
mod restarting;
pub mod row;
mod sealing;
pub mod step;
mod stop;
pub mod table;
mod tickets;
pub mod world;
mod writing;
