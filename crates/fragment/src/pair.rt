// A pair (version, moves) says which of two copies of a block is the newer: the higher version,
// and among equal versions the one that the cleaner moved more often.
ghost use Rattle.std.specs.Prelude.{◌≡◌};
ghost use Rattle.fragment.specs.Pairs.{beats};

#[derive(Clone, Copy, PartialEq, Eq, PartialOrd, Ord, Debug)]
pub struct Pair {
    pub version: u32,
    pub moves: u16,
}

impl Pair {
    // Whether this pair is higher than the other: by version, then by moves.
    pub fn beats(&self, other: &Pair) -> bool
        ensures { result ≡ beats self.now other.now }
    {
        self > other
    }
}
