// The fragments of stripes on a row of servers, of which one may be out: which server lacks one, the
// fragments themselves, as they are there or put together from the others, and the keys in order.
#![tactic(auto)]

pub mod fetch;
pub mod holders;
pub mod in_use;
pub mod keys;
pub mod lacks;
pub mod sealed;
pub mod server_set;
pub mod stripe_fragments;
#[cfg(test)]
mod tests;
pub mod walk;
