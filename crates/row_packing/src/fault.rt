// Why packing or reading back stops.
ghost use Rattle.std.specs.Prelude.{◌≡◌};
ghost use Rattle.row_packing.specs.declared.fault.PackFault.TheVariants.{Memory, Spent, Refused, Bad};

use fragment::cause::Cause;
use ordered::fault::MapFault;
use std::alloc::{AllocError, AllocFailed};
use std::error::Error;
use std::fmt;
use stripe::fault::FillFault;

#[derive(Clone, Copy, PartialEq, Eq, Debug)]
pub enum PackFault {
    // There is no memory left.
    Memory,
    // Versions or stripe numbers are used up.
    Spent,
    // A server refused a call.
    Refused(MapFault),
    // A fragment does not read back.
    Bad(Cause),
    // The manager's table has too little room.
    TableFull,
}

// By hand: no derive says, as `from_gives` does, which fault an error becomes.
impl From<AllocError> for PackFault {
    ghost from_gives = { λ _ fault. fault ≡ Memory };

    fn from(_e: AllocError) -> PackFault {
        PackFault::Memory
    }
}

impl<T: Drop> From<AllocFailed<T>> for PackFault {
    ghost from_gives = { λ _ fault. fault ≡ Memory };

    fn from(_e: AllocFailed<T>) -> PackFault {
        PackFault::Memory
    }
}

impl From<Cause> for PackFault {
    ghost from_gives = { λ cause fault. fault ≡ Bad cause };

    fn from(cause: Cause) -> PackFault {
        PackFault::Bad(cause)
    }
}

impl From<MapFault> for PackFault {
    ghost from_gives = { λ refusal fault. fault ≡ Refused refusal };

    fn from(fault: MapFault) -> PackFault {
        PackFault::Refused(fault)
    }
}

impl From<FillFault> for PackFault {
    ghost from_gives = { λ _ fault. fault ≡ Spent };

    fn from(fault: FillFault) -> PackFault {
        match fault {
            FillFault::NoVersion | FillFault::Full => PackFault::Spent,
        }
    }
}

// By hand: a fault and a cause are said by their numbers.
impl fmt::Display for PackFault {
    fn fmt<W: fmt::Write>(&self, f: &mut fmt::Formatter<W>) -> fmt::Result {
        match self {
            PackFault::Memory => write!(f, "there is no memory left"),
            PackFault::Spent => write!(f, "versions or stripe numbers are used up"),
            PackFault::Refused(fault) => {
                write!(f, "a server refused: fault {}", u8::from(*fault))
            }
            PackFault::Bad(cause) => {
                write!(
                    f,
                    "a fragment does not read back: cause {}",
                    u8::from(*cause)
                )
            }
            PackFault::TableFull => write!(f, "the manager's table is full"),
        }
    }
}

impl Error for PackFault {}
