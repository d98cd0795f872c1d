// Which server of a row holds which part of a stripe.
use crate::key::Key;

// The server so many places beyond the first of this stripe.
fn server_at(servers: u8, key: Key, steps: u16) -> u8 {
    let place = u64::from(key.client) + u64::from(key.stripe) + u64::from(steps);
    let server = place.checked_rem(u64::from(servers)).unwrap_or(0);
    u8::try_from(server).unwrap_or(0)
}

pub fn parity_server(servers: u8, key: Key) -> u8 {
    server_at(servers, key, 0)
}

pub fn data_server(servers: u8, key: Key, index: u8) -> u8 {
    server_at(servers, key, u16::from(index) + 1)
}

// How many data fragments a stripe has.
pub fn data_fragments(servers: u8) -> u8 {
    servers.saturating_sub(1)
}

// How many slots a stripe has.
pub fn stripe_slots(servers: u8) -> usize {
    usize::from(data_fragments(servers)) * 3
}
