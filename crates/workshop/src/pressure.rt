// A pressure as a block: two bytes, the low one first, then zeros.
ghost use Rattle.std.specs.Prelude.{◌≡◌};
ghost use Rattle.workshop.specs.Pressures.{block_of, kpa_in, ComesBack};

use geometry::sizes::{BLOCK_LENGTH, Block};

// Every pressure comes back from its block.
pub fn block_of(kpa: u16) -> Block
    ensures bytes { result ≡ block_of kpa }
    ensures back { ComesBack }
{
    let mut block = [0; BLOCK_LENGTH];
    block[0..2].copy_from_slice(&kpa.to_le_bytes());
    block
}

pub fn kpa_in(block: &Block) -> u16
    ensures { result ≡ kpa_in block.now }
{
    u16::from_le_bytes([block[0], block[1]])
}
