// Keys, and what is stored under them.
use crate::servers::noise::Noise;
use geometry::key::Key;
use geometry::sizes::{FRAGMENT_LENGTH, Fragment};
use std::alloc::Global;

// From one key to the next: 100,000 keys lie spread over all clients.
const GAP: u64 = 343_597;

// So many keys, rising.
pub(crate) fn rising(heap: Global, count: u32) -> anyhow::Result<Vec<Key>> {
    let mut keys = Vec::with_capacity(heap, count as usize)?;
    for i in 0..count {
        keys.push(Key::try_from(u64::from(i) * GAP)?)?;
    }
    Ok(keys)
}

// So many keys (all, where there are fewer), drawn in pseudo-random order, none of them twice. They
// are swapped to the front.
pub(crate) fn draw<'k>(keys: &'k mut [Key], count: usize, noise: &mut Noise) -> &'k [Key] {
    let drawn = count.min(keys.len());
    for at in 0..drawn {
        let other = at + noise.below(keys.len() - at);
        keys.swap(at, other);
    }
    &keys[..drawn]
}

// What is stored under a key at first.
pub(crate) fn fragment_of(key: Key) -> Fragment {
    let mut noise = Noise::new(u64::from(key));
    let mut fragment = [0; FRAGMENT_LENGTH];
    for byte in fragment.iter_mut() {
        *byte = noise.byte();
    }
    fragment
}
