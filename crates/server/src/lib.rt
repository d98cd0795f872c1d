// What a fragment server is: a fixed number of places, and a map from keys to fragments.
#![tactic(auto)]

pub mod calls;
pub mod fragment_server;
pub mod laws;
pub mod stored;
