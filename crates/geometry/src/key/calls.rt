// Making keys, and their order.
ghost use Rattle.std.specs.Prelude.{◌≡◌, if◌then◌else◌, Some, None, nat_lt};
ghost use Rattle.geometry.specs.Keys.{key_number, is_key, number_of, number_in};

use crate::key::Key;
use crate::sizes::CLIENTS;

pub(super) const STRIPES: u64 = 1 << 32;

impl Key {
    // The key of these two numbers, or none where there is no such client or no such stripe.
    pub fn new(client: u64, stripe: u64) -> Option<Key>
        ensures { number_in result ≡ (if is_key client stripe then Some (key_number client stripe) else None) }
    {
        if client < CLIENTS && stripe < STRIPES {
            Some(Key {
                client: client as u8,
                stripe: stripe as u32,
            })
        } else {
            None
        }
    }

    // Whether this key comes before the other: the order of keys is that of their numbers.
    pub fn precedes(&self, other: &Key) -> bool
        ensures { result ≡ nat_lt (number_of self.now) (number_of other.now) }
    {
        self < other
    }
}
