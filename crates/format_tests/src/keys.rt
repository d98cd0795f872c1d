// Which keys and rows can be formed, and the order of keys.
use crate::edges::find_two;
use crate::model::order::{is_below, key};
use geometry::key::Key;
use geometry::row::RowLength;

// How many stripes a client can have.
const STRIPES: u64 = 4294967296;

// Numbers about the edges of clients, of stripes and of rows.
const EDGES: [u64; 14] = [
    0,
    1,
    2,
    3,
    6,
    7,
    8,
    9,
    STRIPES - 2,
    STRIPES - 1,
    STRIPES,
    STRIPES + 1,
    1 << 63,
    u64::MAX,
];

// Numbers about the edges of a client's keys.
const NUMBERS: [u64; 9] = [
    0,
    1,
    STRIPES - 1,
    STRIPES,
    7 * STRIPES - 1,
    7 * STRIPES,
    8 * STRIPES - 1,
    8 * STRIPES,
    u64::MAX,
];

fn numbers(key: Key) -> (u64, u64) {
    (u64::from(key.client()), u64::from(key.stripe()))
}

fn disputed_key() -> Option<(u64, u64)> {
    find_two(&EDGES, |client, stripe| {
        Key::new(client, stripe).map(numbers) != key(client, stripe)
    })
}

fn disputed_number() -> Option<u64> {
    NUMBERS.into_iter().find(|number| {
        Key::try_from(*number).ok().map(numbers) != key(*number / STRIPES, *number % STRIPES)
    })
}

fn disputed_row() -> Option<u64> {
    EDGES.into_iter().find(|servers| {
        let expected = (3..=8).contains(servers).then_some(*servers);
        RowLength::new(*servers).map(|row| u64::from(row.servers())) != expected
    })
}

// Whether the keys of two numbers compare as the rules have it, where there are such keys.
fn order_agrees(left: u64, right: u64) -> bool {
    let (Ok(one), Ok(other)) = (Key::try_from(left), Key::try_from(right)) else {
        return true;
    };
    u64::from(one) == left && one.precedes(&other) == is_below(numbers(one), numbers(other))
}

fn disputed_order() -> Option<(u64, u64)> {
    find_two(&NUMBERS, |left, right| !order_agrees(left, right))
}

#[test]
fn keys_and_rows_formed(rt: HostRuntime) {
    assert_eq!(rt;
        (disputed_key(), disputed_number()),
        (None, None),
        "client and stripe; number of a key"
    );
    assert_eq!(rt;
        (disputed_order(), disputed_row()),
        (None, None),
        "numbers of two keys; length of a row"
    );
}
