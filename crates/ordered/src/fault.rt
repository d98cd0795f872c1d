// Why a map of a fixed number of places refuses: an ordered table, or a server of fragments.
ghost use Rattle.std.specs.Prelude.{◌≡◌};
ghost use Rattle.ordered.specs.Faults.{fault_number};

use std::error::Error;
use std::fmt;

#[derive(Clone, Copy, PartialEq, Eq, Debug)]
pub enum MapFault {
    // What is to be added is there already.
    Held = 1,
    // No place is free.
    Full = 2,
    // What is asked for is not there.
    Absent = 3,
}

impl From<MapFault> for u8 {
    ghost from_gives = { λ fault n. n ≡ fault_number fault };

    fn from(fault: MapFault) -> u8 {
        fault as u8
    }
}

// By hand: no derive of std's prints, and the crate takes in no other crate for it.
impl fmt::Display for MapFault {
    fn fmt<W: fmt::Write>(&self, f: &mut fmt::Formatter<W>) -> fmt::Result {
        f.write_str(match self {
            MapFault::Held => "it is there already",
            MapFault::Full => "no place is free",
            MapFault::Absent => "it is not there",
        })
    }
}

impl Error for MapFault {}
