// The stripes that slots of an open stripe were copied from, in the order in which they were noted. A
// stripe that is sealed takes their place.
ghost use Rattle.std.specs.Prelude.{◌≤◌};
ghost use Rattle.rack.specs.Gathering.{most_sources};

use geometry::key::Key;
use std::error::Error;
use std::fmt;

mod calls;

// How many stripes can be noted.
const MOST_SOURCES: usize = 8;

// Its memory is fixed, so the keys are an array with the number of those noted beside it.
#[derive(Drop)]
pub struct Sources {
    keys: [Key; MOST_SOURCES],
    count: usize,
    ghost few: { count ≤ most_sources },
}

// No stripe can be noted any more.
#[derive(Clone, Copy, PartialEq, Eq, Debug)]
pub struct SourcesFull;

// By hand: no derive of std's prints, and the crate takes in no other crate for it.
impl fmt::Display for SourcesFull {
    fn fmt<W: fmt::Write>(&self, f: &mut fmt::Formatter<W>) -> fmt::Result {
        f.write_str("the stripe has as many sources as it can have")
    }
}

impl Error for SourcesFull {}
