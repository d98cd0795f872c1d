// Parity: the exclusive or of fragments, which also gives a missing fragment back.
#![tactic(auto)]

ghost use Rattle.std.specs.Prelude.{◌≡◌};
ghost use Rattle.parity.specs.Xor.{xored, xor_all, ParityCancels, OneFromTheOthers};

use crate::lanes::xor_columns;
use geometry::sizes::{FRAGMENT_LENGTH, Fragment};
use std::slice;

mod lanes;

// Takes `other` into `acc`, byte by byte.
pub fn xor_into(acc: &mut Fragment, other: &Fragment)
    ensures { acc.new ≡ xored acc.old other.now }
{
    xor_columns(acc, slice::from_ref(other));
}

// Writes the exclusive or of all the fragments to `out`, whatever it held: the parity of data
// fragments, and equally a missing fragment, from all the others and the parity.
pub fn xor_all(fragments: &[Fragment], out: &mut Fragment)
    ensures sum { out.new ≡ xor_all fragments.now }
    ensures cancels { ParityCancels }
    ensures recovers { OneFromTheOthers }
{
    *out = [0; FRAGMENT_LENGTH];
    xor_columns(out, fragments);
}
