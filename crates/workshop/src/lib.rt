// The workshop's side of the yard: gate readings of tyre pressure as lines of text and as blocks,
// and the list of tyres that want air.
#![tactic(auto)]

mod decimal;
pub mod input;
pub mod low;
pub mod newest;
pub mod pressure;
pub mod reading;
#[cfg(test)]
mod tests;
pub mod tyre;
pub mod wrong;
