// The newest reading of each tyre.
use crate::tyre::TyreId;
use std::collections::BTreeMap;

mod calls;

// A reading with the version of its write: of two readings of a tyre the one of the higher version
// is the newer.
#[derive(Clone, Copy, PartialEq, Eq, Debug)]
pub struct Noted {
    pub version: u32,
    pub kpa: u16,
}

#[derive(Drop)]
pub struct Newest {
    noted: BTreeMap<TyreId, Noted>,
}
