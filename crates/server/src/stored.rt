// A fragment kept in memory, with its key.
ghost use Rattle.std.specs.Prelude.{◌≡◌, length};
ghost use Rattle.geometry.specs.Sizes.{fragment_length};

use geometry::key::Key;
use geometry::sizes::Fragment;

mod calls;

#[derive(Clone, Copy)]
pub struct StoredFragment {
    pub key: Key,
    pub bytes: Fragment,
    ghost whole: { length bytes ≡ fragment_length },
}
