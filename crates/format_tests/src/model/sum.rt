// Exclusive or, byte by byte.
use crate::model::Bytes;

pub(crate) fn sum_of(fragments: &[Bytes]) -> Bytes {
    let mut sum = [0; 512];
    for fragment in fragments {
        for (byte, other) in sum.iter_mut().zip(fragment) {
            *byte ^= *other;
        }
    }
    sum
}
