// The two layouts of a fragment. In layout 1 a write has a version of 16 bits and there are no
// trims and no moves.
ghost use Rattle.std.specs.Prelude.{◌≡◌};
ghost use Rattle.std.specs.Option.{ok_or};
ghost use Rattle.fragment.specs.Heads.{layout_in};
ghost use Rattle.fragment.specs.Numbers.{layout_number};
ghost use Rattle.fragment.specs.declared.cause.Cause.TheVariants.{BadLayout};

use crate::cause::Cause;

#[derive(Clone, Copy, PartialEq, Eq, Debug)]
pub enum Layout {
    One = 1,
    Two = 2,
}

impl From<Layout> for u8 {
    ghost from_gives = { λ layout n. n ≡ layout_number layout };

    fn from(layout: Layout) -> u8 {
        layout as u8
    }
}

impl TryFrom<u8> for Layout {
    type Error = Cause;

    ghost try_from_gives = { λ n r. r ≡ ok_or (layout_in n) BadLayout };

    fn try_from(number: u8) -> Result<Layout, Cause> {
        match number {
            1 => Ok(Layout::One),
            2 => Ok(Layout::Two),
            _ => Err(Cause::BadLayout),
        }
    }
}
