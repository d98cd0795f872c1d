// What the service of a rack answers and leaves, as definitions, and the values that calls and
// definitions share: its faults, and the entries of the manager's table.
#![tactic(auto)]

pub mod entry;
pub mod fault;
