// The bytes of a log: records of 520 bytes, one to a place. Bytes after the last whole record belong
// to none.
use crate::model::Name;
use crate::model::map::{Entry, Map};
use std::array;

pub(crate) const RECORD: usize = 520;

// A held record: state 1, client, two zeros, the stripe with its low byte first, and the fragment.
fn record_of(entry: &Entry) -> [u8; RECORD] {
    let stripe = entry.name.stripe;
    array::from_fn(|place| match place {
        0 => 1,
        1 => entry.name.client,
        4 => (stripe % 256) as u8,
        5 => (stripe / 256 % 256) as u8,
        6 => (stripe / 65536 % 256) as u8,
        7 => (stripe / 16777216) as u8,
        8..520 => entry.bytes[place - 8],
        _ => 0,
    })
}

// Writes the map's records at the front of the bytes: the held ones, then zeros.
pub(crate) fn write(map: &Map, bytes: &mut [u8]) {
    let records = bytes.as_chunks_mut().0.iter_mut().take(map.places);
    for (record, entry) in records.zip(map.entries) {
        *record = entry.map_or([0; RECORD], |entry| record_of(&entry));
    }
}

// The entry of a held record, or none where it breaks a rule.
fn entry_of(record: &[u8; RECORD]) -> Option<Entry> {
    let [state, client, second, third, a, b, c, d, ..] = *record;
    let stripe = u32::from(a) + 256 * u32::from(b) + 65536 * u32::from(c) + 16777216 * u32::from(d);
    (state == 1 && client <= 7 && second == 0 && third == 0).then_some(Entry {
        name: Name { client, stripe },
        bytes: array::from_fn(|place| record[place + 8]),
    })
}

// What the bytes hold, or none where they break a rule: those of a record, no key twice, and no held
// record after a free one.
pub(crate) fn read(bytes: &[u8]) -> Option<Map> {
    let mut map = Map::new(bytes.len() / RECORD);
    let mut is_past_held = false;
    for record in bytes.as_chunks().0 {
        if record.iter().all(|byte| *byte == 0) {
            is_past_held = true;
        } else if is_past_held {
            return None;
        } else {
            let entry = entry_of(record)?;
            map.store(entry.name, &entry.bytes).ok()?;
        }
    }
    Some(map)
}
