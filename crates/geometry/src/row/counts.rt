// What a stripe has on a row of this length.
ghost use Rattle.std.specs.Prelude.{◌≡◌, ◌-◌};
ghost use Rattle.geometry.specs.Sizes.{slot_count};

use crate::row::RowLength;
use crate::sizes::SLOTS_IN_FRAGMENT;

impl RowLength {
    // How many data fragments a stripe has: one for each server but the parity's.
    pub fn data_fragments(&self) -> u8
        ensures { result ≡ self.now.servers - 1 }
    {
        self.servers - 1
    }

    // How many slots a stripe has.
    pub fn slots(&self) -> usize
        ensures { result ≡ slot_count self.now.servers }
    {
        SLOTS_IN_FRAGMENT * self.data_fragments() as usize
    }
}
