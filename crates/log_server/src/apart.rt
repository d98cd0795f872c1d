// Whether records have keys of their own. There is no memory in which to sort them, so a key that may
// be there twice costs a walk over other records, a look at each. Down from the last record, a key below
// all later ones costs none, and any other a walk over the later ones; up from the first it is the other
// way round. An order that is quick one way can be slow the other way.
ghost use Rattle.std.specs.Prelude.{◌≡◌, ◌+◌, ◌*◌, ◌≤◌, length, drop};
ghost use Rattle.ordered.specs.Maps.{has};
ghost use Rattle.server.specs.Meaning.{piece_key};
ghost use Rattle.log_server.specs.Records.{record_length};
ghost use Rattle.log_server.specs.Area.{pieces_in, apart};

use crate::record::{RECORD_LENGTH, key_number};
use crate::walk::{find, records_in};

// How many looks a record the way down may take, before the way up is weighed: so many that the weighing,
// a look or more a record itself, is little beside them.
const MANY: u64 = 64;

// How many times the looks of the way down so far the way up may take, to be gone.
const AT_MOST: u64 = 16;

// By the way up.
#[inline(never)]
fn apart_upwards(records: &[u8]) -> bool
    ensures { result ≡ apart (pieces_in records.now) }
{
    let mut greatest: Option<u64> = None;
    for (i, record) in records_in(records).iter().enumerate() {
        let key = key_number(record);
        if greatest.is_none_or(|greatest| greatest < key) {
            greatest = Some(key);
        } else if find(&records[..RECORD_LENGTH * i], key).is_some() {
            return false; // It came before.
        }
    }
    true
}

// How many looks the way up takes, where no key is there twice.
fn looks_upwards(records: &[u8]) -> u64 {
    let mut looks: u64 = 0;
    let mut greatest: Option<u64> = None;
    for (i, record) in records_in(records).iter().enumerate() {
        let key = key_number(record);
        if greatest.is_none_or(|greatest| greatest < key) {
            greatest = Some(key);
        } else {
            looks = looks.saturating_add(i as u64);
        }
    }
    looks
}

// The same of the way down.
fn looks_downwards(records: &[u8]) -> u64 {
    let all = records_in(records);
    let mut looks: u64 = 0;
    let mut least: Option<u64> = None;
    for i in (0..all.len()).rev() {
        let key = key_number(&all[i]);
        if least.is_none_or(|least| key < least) {
            least = Some(key);
        } else {
            looks = looks.saturating_add((all.len() - i) as u64);
        }
    }
    looks
}

// Whether the way up takes fewer looks than what is left of the way down, which took so many. If it is
// many times as many, it is not gone: the way down may come to a key that is there twice at once.
#[inline(never)]
fn is_quicker_upwards(records: &[u8], looks: u64) -> bool {
    let left = looks_downwards(records).saturating_sub(looks);
    looks_upwards(records) < left.min(looks.saturating_mul(AT_MOST))
}

// Whether a record after record `i` has this key. By `any`: here `find` would take a third more for each
// look.
#[inline(never)]
fn comes_again(records: &[u8], i: usize, key: u64) -> bool
    requires { record_length * (i + 1) ≤ length records.now }
    ensures { result ≡ has piece_key (drop (i + 1) (pieces_in records.now)) key }
{
    let (_, later) = records.split_at(RECORD_LENGTH * (i + 1));
    records_in(later)
        .iter()
        .any(|record| key_number(record) == key)
}

// Whether no two of the records have one key: by the way down, but for the rest by the way up once that
// is seen to be quicker. What few records ask for stands apart (`inline(never)`): within the loop it
// would make each turn twice as long.
pub(crate) fn keys_apart(records: &[u8]) -> bool
    ensures { result ≡ apart (pieces_in records.now) }
{
    let all = records_in(records);
    let mut most = MANY.saturating_mul(all.len() as u64);
    let mut looks: u64 = 0;
    let mut least: Option<u64> = None;
    for i in (0..all.len()).rev() {
        let key = key_number(&all[i]);
        if least.is_none_or(|least| key < least) {
            least = Some(key);
            continue;
        }
        looks = looks.saturating_add((all.len() - i) as u64);
        if looks > most {
            if is_quicker_upwards(records, looks) {
                return apart_upwards(records);
            }
            most = looks.saturating_mul(4);
        }
        if comes_again(records, i, key) {
            return false; // It comes again.
        }
    }
    true
}
