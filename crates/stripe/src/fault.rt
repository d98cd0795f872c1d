// Why a stripe being filled takes no slot more.
use std::error::Error;
use std::fmt;

#[derive(Clone, Copy, PartialEq, Eq, Debug)]
pub enum FillFault {
    // The delta has no version. This is named first.
    NoVersion,
    // Every slot is filled.
    Full,
}

// By hand: no derive of std's prints, and the crate takes in no other crate for it.
impl fmt::Display for FillFault {
    fn fmt<W: fmt::Write>(&self, f: &mut fmt::Formatter<W>) -> fmt::Result {
        f.write_str(match self {
            FillFault::NoVersion => "the delta has no version",
            FillFault::Full => "every slot of the stripe is filled",
        })
    }
}

impl Error for FillFault {}
