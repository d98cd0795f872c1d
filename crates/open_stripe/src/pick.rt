// The bytes of a block, where they stand.
ghost use Rattle.std.specs.Prelude.{◌≡◌};
ghost use Rattle.std.specs.Option.{option_map};
ghost use Rattle.open_stripe.specs.Picks.{picked, OpenBlocks, SealedBlocks};

use fragment::codec::block_in;
use geometry::sizes::{Block, Fragment, SLOTS_IN_FRAGMENT};

// A slot of an open stripe, by its number there, or a slot of one fragment of a sealed one.
#[derive(Clone, Copy, PartialEq, Eq, Debug)]
pub enum BlockPlace {
    Open(usize),
    Sealed(usize),
}

// The bytes of the block in this place: a part of the open stripe's data fragments or of the one
// fragment, if there is such a slot. Where no stripe is open there are no data fragments.
pub fn pick<'a>(
    stripe: &'a [Fragment],
    fragment: &'a Fragment,
    place: BlockPlace,
) -> Option<&'a Block>
    ensures bytes { option_map (λ b. b.now) result ≡ picked place stripe.now fragment.now }
    ensures of_open { OpenBlocks }
    ensures of_sealed { SealedBlocks }
{
    let (fragment, slot) = match place {
        BlockPlace::Open(slot) => {
            let open = stripe.get(slot / SLOTS_IN_FRAGMENT)?;
            (open, slot % SLOTS_IN_FRAGMENT)
        }
        BlockPlace::Sealed(slot) => (fragment, slot),
    };
    block_in(fragment, slot)
}
