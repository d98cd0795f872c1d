// A digest of fragments, by the hash FNV-1a: it shows whether two runs fetched the same bytes.
use geometry::sizes::Fragment;

const START: u64 = 0xcbf2_9ce4_8422_2325;

const PRIME: u64 = 0x0000_0100_0000_01b3;

#[derive(Clone, Copy)]
pub(crate) struct Digest {
    pub hash: u64,
}

impl Digest {
    pub(crate) fn new() -> Digest {
        Digest { hash: START }
    }

    pub(crate) fn take_in(&mut self, fragments: &[Fragment]) {
        self.hash = fragments.as_flattened().iter().fold(
            self.hash,
            |hash, byte| (hash ^ u64::from(*byte)).wrapping_mul(PRIME),
        );
    }
}
