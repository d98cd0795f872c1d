// Exclusive or of fragments.
use crate::codec::Bytes;

pub fn add_into(sum: &mut Bytes, fragment: &Bytes) {
    for (byte, other) in sum.iter_mut().zip(fragment) {
        *byte ^= *other;
    }
}
