// A client's log on a row: its first stripes.
ghost use Rattle.std.specs.Prelude.{◌≡◌, false, is_ok, IfOk, IfErr};
ghost use Rattle.geometry.specs.Keys.{key_number, is_key, number_of};

use crate::fault::PackFault;
use geometry::key::Key;
use geometry::placement::PlacedStripe;
use geometry::row::RowLength;

#[derive(Clone, Copy, PartialEq, Eq, Debug)]
pub struct Log {
    pub row: RowLength,
    pub client: u64,
    pub stripes: u64,
}

impl Log {
    // The stripe of this number, if there can be one.
    pub(crate) fn stripe(&self, number: u64) -> Result<PlacedStripe, PackFault>
        ensures known { is_ok result ≡ is_key self.now.client number }
        ensures row { IfOk result (λ stripe. stripe.row ≡ self.now.row) }
        ensures key { IfOk result (λ stripe. number_of stripe.key ≡ key_number self.now.client number) }
        ensures spent { IfErr result (λ fault. (fault ≡ PackFault.Spent) × (is_key self.now.client number ≡ false)) }
    {
        let key = Key::new(self.client, number).ok_or(PackFault::Spent)?;
        Ok(PlacedStripe { row: self.row, key })
    }
}
