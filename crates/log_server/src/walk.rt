// Walks over records, by their first eight bytes. Bytes after the last whole record are passed over.
ghost use Rattle.std.specs.Prelude.{◌≡◌, ◌+◌, ◌*◌, ◌%◌, ◌≤◌, length, if◌then◌else◌, Some, None};
ghost use Rattle.ordered.specs.Maps.{least};
ghost use Rattle.server.specs.Meaning.{piece_key, key_in};
ghost use Rattle.log_server.specs.Records.{record_length, records_in, record_at};
ghost use Rattle.log_server.specs.Area.{pieces_in, front, in_order, map_of};
ghost use Rattle.log_server.specs.Walks.{place_of};

use crate::apart::keys_apart;
use crate::record::{RECORD_LENGTH, Record, is_held, key_number};
use geometry::bytes::all_zero;

// The whole records of these bytes.
pub(crate) fn records_in(bytes: &[u8]) -> &[Record]
    ensures { result.now ≡ records_in bytes.now }
{
    bytes.as_chunks().0
}

// Record `i` of the area.
pub(crate) fn record_at(area: &[u8], i: usize) -> &Record
    requires { record_length * (i + 1) ≤ length area.now }
    ensures { result.now ≡ record_at area.now i }
{
    &records_in(area)[i]
}

// How many records from the first on are held.
pub(crate) fn count_held(records: &[u8]) -> usize
    ensures is { result ≡ length (front (records_in records.now)) }
    ensures within { record_length * result ≤ length records.now }
{
    records_in(records)
        .iter()
        .take_while(|record| is_held(record))
        .count()
}

// The first of the records that has this key.
pub(crate) fn find(records: &[u8], key: u64) -> Option<usize>
    ensures { result ≡ place_of (pieces_in records.now) key }
{
    records_in(records)
        .iter()
        .position(|record| key_number(record) == key)
}

// The least key of the records that is not below this one.
pub(crate) fn nearest(records: &[u8], from: u64) -> Option<u64>
    ensures { result ≡ key_in (least piece_key (map_of (pieces_in records.now)) from) }
{
    records_in(records)
        .iter()
        .map(key_number)
        .filter(|key| *key >= from)
        .min()
}

// How many of these whole records are held, or none where they are not in order.
pub(crate) fn held_in_order(records: &[u8]) -> Option<usize>
    requires { length records.now % record_length ≡ 0 }
    ensures { result ≡ (if in_order (records_in records.now) then Some (length (front (records_in records.now))) else None) }
{
    let held = count_held(records);
    let (front, rest) = records.split_at(RECORD_LENGTH * held);
    (all_zero(rest) && keys_apart(front)).then_some(held)
}
