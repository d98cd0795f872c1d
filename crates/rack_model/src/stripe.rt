// The fragments of a stripe with these slots.
use crate::codec::{Bytes, EMPTY, Wanted, written};
use crate::key::Key;
use crate::parity::add_into;
use crate::placement::{data_fragments, data_server};
use crate::slot::Slot;

// Which data fragment of the stripe lies on this server; none where the parity does.
pub fn index_on(servers: u8, key: Key, server: u8) -> Option<u8> {
    (0..data_fragments(servers)).find(|index| data_server(servers, key, *index) == server)
}

fn data_fragment(servers: u8, key: Key, index: u8, slots: &[Slot]) -> Bytes {
    let wanted = Wanted {
        servers,
        key,
        index,
    };
    written(wanted, slots)
}

fn parity_fragment(servers: u8, key: Key, slots: &[Slot]) -> Bytes {
    let mut sum = EMPTY;
    for index in 0..data_fragments(servers) {
        add_into(&mut sum, &data_fragment(servers, key, index, slots));
    }
    sum
}

// The fragment of the stripe that lies on this server.
pub fn fragment_on(servers: u8, key: Key, server: u8, slots: &[Slot]) -> Bytes {
    match index_on(servers, key, server) {
        Some(index) => data_fragment(servers, key, index, slots),
        None => parity_fragment(servers, key, slots),
    }
}
