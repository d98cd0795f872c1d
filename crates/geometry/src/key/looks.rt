// The parts of a key.
ghost use Rattle.std.specs.Prelude.{◌≡◌};

use crate::key::Key;

impl Key {
    pub fn client(&self) -> u8
        ensures { result ≡ self.now.client }
    {
        self.client
    }

    pub fn stripe(&self) -> u32
        ensures { result ≡ self.now.stripe }
    {
        self.stripe
    }
}
