// Exclusive or of fragments, and a missing one put together.
ghost use Rattle.std.specs.Prelude.{◌<◌, ◌≤◌};

use crate::model::Bytes;
use crate::model::sum::sum_of;
use crate::noise::noise;
use parity::{xor_all, xor_into};

// What `xor_all` writes, over bytes that are not zero.
fn sum_by_code(fragments: &[Bytes]) -> Bytes {
    let mut out = [170; 512];
    xor_all(fragments, &mut out);
    out
}

fn sum_one_by_one(fragments: &[Bytes]) -> Bytes {
    let mut sum = [0; 512];
    for fragment in fragments {
        xor_into(&mut sum, fragment);
    }
    sum
}

fn sums_agree(fragments: &[Bytes]) -> bool {
    let expected = sum_of(fragments);
    sum_by_code(fragments) == expected && sum_one_by_one(fragments) == expected
}

// Whether a part of a stripe of `count` data fragments and their parity is the sum of the others.
// The part that is missing goes by its place, since it changes places with the parity.
fn part_comes_back(fragments: &[Bytes; 8], count: usize, missing: usize) -> bool
    requires fits { count < 8 }
    requires present { missing ≤ count }
{
    let mut stripe = *fragments;
    stripe[count] = sum_by_code(&fragments[0..count]);
    let lost = stripe[missing];
    stripe.swap(missing, count);
    sum_by_code(&stripe[0..count]) == lost
}

// Whether each of them is.
fn parts_come_back(fragments: &[Bytes; 8], count: usize) -> bool
    requires { count < 8 }
{
    (0..=count).all(|missing| part_comes_back(fragments, count, missing))
}

fn disputed_count(all: &[Bytes; 8]) -> Option<usize> {
    (0..=8).find(|count| !sums_agree(&all[0..*count]))
}

fn lost_count(all: &[Bytes; 8]) -> Option<usize> {
    (0..=7).find(|count| !parts_come_back(all, *count))
}

#[test]
fn fragments_summed(rt: HostRuntime) {
    let all = [1, 2, 3, 4, 5, 6, 7, 8].map(noise);
    assert_eq!(rt;
        (disputed_count(&all), lost_count(&all)),
        (None, None),
        "how many fragments; how many data fragments"
    );
}
