// Noting readings, and listing the tyres that want air.
ghost use Rattle.std.specs.Prelude.{◌≡◌, IfOk, None, MatchResult};
ghost use Rattle.workshop.specs.declared.tyre.TyreId.{TyreId};
ghost use Rattle.workshop.specs.Readings.{noted_for, NotedOnly, Unchanged, OrderFree, LowList};

use crate::low::{LowTyre, is_low};
use crate::newest::{Newest, Noted};
use crate::tyre::TyreId;
use std::alloc::{AllocError, Global};
use std::collections::BTreeMap;

impl Newest {
    pub fn new(heap: Global) -> Newest
        ensures { (tyre : TyreId) → noted_for result tyre ≡ None }
    {
        Newest {
            noted: BTreeMap::new(heap),
        }
    }

    // The newest reading noted of this tyre, if there is one.
    pub fn get(&self, tyre: TyreId) -> Option<Noted>
        ensures { result ≡ noted_for self.now tyre }
    {
        self.noted.get(&tyre).copied()
    }

    // Notes a reading. Of two readings of one tyre the one of the higher version is kept, in
    // whatever order they come. A look-up and an insert: through one entry the proof does not close.
    pub fn note(&mut self, tyre: TyreId, version: u32, kpa: u16) -> Result<(), AllocError>
        ensures noted { MatchResult result (λ _. NotedOnly self.old self.new tyre (record { version = version; kpa = kpa })) (λ _. Unchanged self.old self.new) }
        ensures law { OrderFree }
    {
        match self.get(tyre) {
            Some(old) if old.version >= version => Ok(()),
            _ => {
                self.noted.insert(tyre, Noted { version, kpa })?;
                Ok(())
            }
        }
    }

    // The tyres whose newest reading is low, in order of truck, then tyre.
    pub fn low_list(&self, heap: Global) -> Result<Vec<LowTyre>, AllocError>
        ensures { IfOk result (λ list. LowList self.now list.items) }
    {
        self.noted
            .iter()
            .filter(|(_, noted)| is_low(noted.kpa))
            .map(|(tyre, noted)| LowTyre {
                tyre: *tyre,
                kpa: noted.kpa,
            })
            .collect(heap)
    }
}
