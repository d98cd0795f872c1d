// Why a fragment is not had.
ghost use Rattle.std.specs.Prelude.{◌≡◌};
ghost use Rattle.geometry.specs.Keys.{number_of};
ghost use Rattle.ordered.specs.declared.fault.MapFault.TheVariants.{Absent};
ghost use Rattle.rack.specs.Answers.{torn};
ghost use Rattle.rack.specs.Faults.{fault_of};

use geometry::key::Key;
use ordered::fault::MapFault;
use rack::fault::{FaultCause, Place, ServiceFault};
use std::error::Error;
use std::fmt;

// This server, which must be read, lacks the key.
#[derive(Clone, Copy, PartialEq, Eq, Debug)]
pub struct Lacks {
    pub server: u8,
    pub key: Key,
}

// By hand: no derive of std's prints, and the crate takes in no other crate for it.
impl fmt::Display for Lacks {
    fn fmt<W: fmt::Write>(&self, f: &mut fmt::Formatter<W>) -> fmt::Result {
        write!(
            f,
            "server {} lacks stripe {} of client {}",
            self.server,
            self.key.stripe(),
            self.key.client()
        )
    }
}

impl Error for Lacks {}

impl From<Lacks> for ServiceFault {
    ghost from_gives = { λ lacks fault. fault_of fault ≡ torn lacks.server (number_of lacks.key) Absent };

    fn from(lacks: Lacks) -> ServiceFault {
        ServiceFault {
            cause: FaultCause::Torn(MapFault::Absent),
            place: Place::Fragment(lacks.server, lacks.key),
        }
    }
}
