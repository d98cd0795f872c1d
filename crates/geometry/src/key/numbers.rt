// A key as one number, client × 2^32 + stripe, and back.
ghost use Rattle.std.specs.Prelude.{◌≡◌, ◌*◌, ◌^◌, ◌<◌, ◌≤◌, MatchResult};
ghost use Rattle.geometry.specs.Keys.{number_of};

use crate::key::Key;
use crate::key::calls::STRIPES;
use std::error::Error;
use std::fmt;

// No key has the number.
#[derive(Clone, Copy, PartialEq, Eq, Debug)]
pub struct NotAKey;

// By hand: no derive of std's prints, and the crate takes in no other crate for it.
impl fmt::Display for NotAKey {
    fn fmt<W: fmt::Write>(&self, f: &mut fmt::Formatter<W>) -> fmt::Result {
        write!(f, "no key has this number")
    }
}

impl Error for NotAKey {}

impl From<Key> for u64 {
    ghost from_gives = { λ key n. n ≡ number_of key };

    fn from(key: Key) -> u64 {
        u64::from(key.client) * STRIPES + u64::from(key.stripe)
    }
}

impl TryFrom<u64> for Key {
    type Error = NotAKey;

    ghost try_from_gives = { λ n r. MatchResult r (λ key. number_of key ≡ n) (λ _. 8 * 2 ^ 32 ≤ n) };

    fn try_from(number: u64) -> Result<Key, NotAKey> {
        Key::new(number / STRIPES, number % STRIPES).ok_or(NotAKey)
    }
}
