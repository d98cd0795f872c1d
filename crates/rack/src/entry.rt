// An entry of the manager's table: for one block, the sealed slot that holds it.
ghost use Rattle.std.specs.Prelude.{◌≡◌};
ghost use Rattle.rack.specs.Entries.{entry_of, entry_block, block_number};

use fragment::delta::{Delta, Kind};
use fragment::pair::Pair;
use geometry::key::Key;
use ordered::keyed::Keyed;

// A block's number: by file, then by its number in the file.
pub fn block_number(file: u16, block: u16) -> u64
    ensures { result ≡ block_number file block }
{
    u64::from(file) * 65536 + u64::from(block)
}

// The place of a slot: its stripe, the index of its data fragment, and its number in that.
#[derive(Clone, Copy, PartialEq, Eq, Debug)]
pub struct SlotPlace {
    pub key: Key,
    pub index: u8,
    pub slot: u8,
}

// The block is named by its file and its number in the file.
#[derive(Clone, Copy, PartialEq, Eq, Debug)]
pub struct Entry {
    pub file: u16,
    pub block: u16,
    pub kind: Kind,
    pub pair: Pair,
    pub place: SlotPlace,
}

impl Keyed for Entry {
    ghost number = { λ e. entry_block (entry_of e) };

    fn key_number(&self) -> u64 {
        block_number(self.file, self.block)
    }
}
