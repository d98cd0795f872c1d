// Where things lie in a rack: the sizes of what is stored, the key of a stripe, and which server
// of the row holds which part of it.
#![tactic(auto)]

pub mod bytes;
pub mod key;
pub mod part;
pub mod placement;
pub mod row;
pub mod sizes;
