// When a tyre wants air.
ghost use Rattle.std.specs.Prelude.{◌≡◌};
ghost use Rattle.workshop.specs.Pressures.{is_low};

use crate::tyre::TyreId;

// A tyre is sound from this pressure on.
pub const SOUND_KPA: u16 = 600;

// A tyre that wants air, with its pressure.
#[derive(Clone, Copy, PartialEq, Eq, Debug)]
pub struct LowTyre {
    pub tyre: TyreId,
    pub kpa: u16,
}

pub fn is_low(kpa: u16) -> bool
    ensures { result ≡ is_low kpa }
{
    kpa < SOUND_KPA
}
