// A delta says what a filled slot is: a write of a block's bytes, or a trim, which takes the block
// away.
ghost use Rattle.std.specs.Prelude.{◌≡◌};
ghost use Rattle.fragment.specs.Numbers.{kind_number};
ghost use Rattle.fragment.specs.Pairs.{pair_of};

use crate::pair::Pair;

#[derive(Clone, Copy, PartialEq, Eq, Debug)]
pub enum Kind {
    Write = 1,
    Trim = 2,
}

impl From<Kind> for u8 {
    ghost from_gives = { λ kind n. n ≡ kind_number kind };

    fn from(kind: Kind) -> u8 {
        kind as u8
    }
}

// The block is named by its file and its number in the file. A filled slot has version 1 or more.
#[derive(Clone, Copy, PartialEq, Eq, Debug)]
pub struct Delta {
    pub kind: Kind,
    pub file: u16,
    pub block: u16,
    pub version: u32,
    pub moves: u16,
}

impl Delta {
    pub fn pair(&self) -> Pair
        ensures { result ≡ pair_of self.now }
    {
        Pair {
            version: self.version,
            moves: self.moves,
        }
    }
}
