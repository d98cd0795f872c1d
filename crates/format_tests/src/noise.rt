// Bytes with no pattern, the same in every run: a shift register of 64 bits.
pub(crate) fn noise<const N: usize>(seed: u64) -> [u8; N] {
    let mut state = seed.wrapping_mul(0x9e3779b97f4a7c15) | 1;
    let mut bytes = [0; N];
    for byte in bytes.iter_mut() {
        state ^= state << 13;
        state ^= state >> 7;
        state ^= state << 17;
        *byte = (state % 256) as u8;
    }
    bytes
}
