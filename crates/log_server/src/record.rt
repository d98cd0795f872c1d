// One record of the area:
//
//     byte     held                          free
//     0        1                             0
//     1        client                        0
//     2-3      0                             0
//     4-7      stripe, low byte first        0
//     8-519    fragment                      0
ghost use Rattle.std.specs.Prelude.{◌≡◌, length};
ghost use Rattle.log_server.specs.Records.{record_length, stripe_in, record_key, is_held, lead, held_record};

use geometry::key::Key;
use geometry::sizes::{FRAGMENT_LENGTH, Fragment};

pub(crate) const LEAD_LENGTH: usize = 8;

pub(crate) const RECORD_LENGTH: usize = LEAD_LENGTH + FRAGMENT_LENGTH;

pub(crate) type Record = [u8; RECORD_LENGTH];

// No enum: a free record is known by all its bytes being zero, so a state for it would stand unused.
const HELD: u8 = 1;

fn stripe_in(bytes: &Record) -> u32
    ensures { result ≡ stripe_in bytes.now }
{
    u32::from_le_bytes([bytes[4], bytes[5], bytes[6], bytes[7]])
}

// The number of a held record's key.
// By number and not as a `Key`: contracts compare key numbers, and bytes that are no key have one too.
pub(crate) fn key_number(bytes: &Record) -> u64
    ensures { result ≡ record_key bytes.now }
{
    (u64::from(bytes[1]) << 32) + u64::from(stripe_in(bytes))
}

// Whether this is a held record that keeps the rules.
pub(crate) fn is_held(bytes: &Record) -> bool
    ensures { result ≡ is_held bytes.now }
{
    let key = Key::new(u64::from(bytes[1]), u64::from(stripe_in(bytes)));
    bytes[0] == HELD && key.is_some() && bytes[2] == 0 && bytes[3] == 0
}

fn lead(key: Key) -> [u8; LEAD_LENGTH]
    ensures { result ≡ lead key.client key.stripe }
{
    let client = key.client();
    let [a, b, c, d] = key.stripe().to_le_bytes();
    [HELD, client, 0, 0, a, b, c, d]
}

// Writes a held record over the whole of `bytes`, which is the record's own part of the area.
pub(crate) fn write_record(bytes: &mut [u8], key: Key, fragment: &Fragment)
    requires { length bytes.old ≡ record_length }
    ensures { bytes.new ≡ held_record key.client key.stripe fragment.now }
{
    let front = lead(key);
    bytes[0..LEAD_LENGTH].copy_from_slice(&front);
    bytes[LEAD_LENGTH..RECORD_LENGTH].copy_from_slice(fragment);
}
