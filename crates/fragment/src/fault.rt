// What filling a slot refuses.
use std::error::Error;
use std::fmt;

// A fragment has no slot of this number.
#[derive(Clone, Copy, PartialEq, Eq, Debug)]
pub struct NoSuchSlot;

// By hand: no derive of std's prints, and the crate takes in no other crate for it.
impl fmt::Display for NoSuchSlot {
    fn fmt<W: fmt::Write>(&self, f: &mut fmt::Formatter<W>) -> fmt::Result {
        write!(f, "a fragment has no such slot")
    }
}

impl Error for NoSuchSlot {}
