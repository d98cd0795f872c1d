// Exclusive or by vector lanes.
ghost use Rattle.std.specs.Prelude.{◌≡◌};
ghost use Rattle.parity.specs.Xor.{xored, xor_all, Long};

use geometry::sizes::{FRAGMENT_LENGTH, Fragment};
use std::simd::prelude::*;

// Fragments are taken by columns, 64 neighbouring bytes of each.
const COLUMN: usize = 64;

// Takes all the fragments into `acc`. Each byte is read once, and the sum of a column stays in
// registers. Not by `chunks_exact_mut`: no clause says what its slice ends as.
pub(crate) fn xor_columns(acc: &mut [u8], fragments: &[Fragment])
    requires { Long acc.old }
    ensures { acc.new ≡ xored acc.old (xor_all fragments.now) }
{
    for at in (0..FRAGMENT_LENGTH).step_by(COLUMN) {
        let mut sum = u8x64::from_slice(&acc[at..]);
        for fragment in fragments {
            sum ^= u8x64::from_slice(&fragment[at..]);
        }
        sum.copy_to_slice(&mut acc[at..]);
    }
}
