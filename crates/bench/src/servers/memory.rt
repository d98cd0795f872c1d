// Memory for the servers, from the heap.
use crate::servers::keys::{fragment_of, rising};
use geometry::key::Key;
use geometry::sizes::FRAGMENT_LENGTH;
use log_server::log::LogServer;
use server::stored::StoredFragment;
use std::alloc::{AllocError, Global};

// The state of a held record.
const HELD: u8 = 1;

// Places for a shelf. What they hold before it uses them does not matter.
pub(crate) fn places(heap: Global, count: u32) -> Result<Vec<StoredFragment>, AllocError> {
    let place = StoredFragment::new(Key::new(0, 0).unwrap(), &[0; FRAGMENT_LENGTH]);
    vec![in heap; place; count as usize]
}

// An area on which a log holds the keys, one record of 520 bytes each. It is written here, since a
// log that is filled by stores walks over all its records at each of them.
pub(crate) fn filled_area(heap: Global, count: u32) -> anyhow::Result<Vec<u8>> {
    let mut area = Vec::with_capacity(heap, LogServer::length_for(count))?;
    for key in rising(heap, count)?.iter() {
        area.extend_from_slice(&[HELD, key.client(), 0, 0])?;
        area.extend_from_slice(&key.stripe().to_le_bytes())?;
        area.extend_from_slice(&fragment_of(*key))?;
    }
    Ok(area)
}
