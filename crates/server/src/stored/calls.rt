// Making stored fragments, and their order by key.
ghost use Rattle.std.specs.Prelude.{◌≡◌};
ghost use Rattle.server.specs.Stored.{stored_number};

use crate::stored::StoredFragment;
use geometry::key::Key;
use geometry::sizes::Fragment;
use ordered::keyed::Keyed;

impl Keyed for StoredFragment {
    ghost number = { stored_number };

    fn key_number(&self) -> u64 {
        u64::from(self.key)
    }
}

impl StoredFragment {
    pub fn new(key: Key, bytes: &Fragment) -> StoredFragment
        ensures key { result.key ≡ key }
        ensures bytes { result.bytes ≡ bytes.now }
    {
        StoredFragment { key, bytes: *bytes }
    }
}
