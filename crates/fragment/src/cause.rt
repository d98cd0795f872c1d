// Why bytes are not the data fragment that was asked for. Reading names the first cause that
// applies, in this order.
ghost use Rattle.std.specs.Prelude.{◌≡◌};
ghost use Rattle.fragment.specs.Numbers.{cause_number};

use std::error::Error;
use std::fmt;

#[derive(Clone, Copy, PartialEq, Eq, Debug)]
pub enum Cause {
    // The layout is neither 1 nor 2.
    BadLayout = 1,
    // The row length is another.
    BadRow = 2,
    // Another byte of the head is not as the key and the index call for.
    BadHead = 3,
    // A slot breaks a rule of its layout.
    BadSlot = 4,
}

impl From<Cause> for u8 {
    ghost from_gives = { λ cause n. n ≡ cause_number cause };

    fn from(cause: Cause) -> u8 {
        cause as u8
    }
}

// By hand: no derive of std's prints, and the crate takes in no other crate for it.
impl fmt::Display for Cause {
    fn fmt<W: fmt::Write>(&self, f: &mut fmt::Formatter<W>) -> fmt::Result {
        f.write_str(match self {
            Cause::BadLayout => "the layout is neither 1 nor 2",
            Cause::BadRow => "the row length is another",
            Cause::BadHead => "the head is of another fragment",
            Cause::BadSlot => "a slot breaks a rule of its layout",
        })
    }
}

impl Error for Cause {}
