// Histories of calls on the model of a rack, drawn by dice, and the promises that hold over each of
// them. The plain rack beside it knows only what was called and answered.
#![tactic(auto)]

pub mod compare;
pub mod dice;
pub mod draw;
pub mod event;
pub mod hands;
pub mod history;
pub mod ledger;
pub mod plain;
pub mod plan;
pub mod promises;
pub mod tally;
