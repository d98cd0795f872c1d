// What a packer says of itself.
ghost use Rattle.std.specs.Prelude.{◌≡◌};

use crate::log::Log;
use crate::pack::Packer;

// The client under whose log the gate's readings go.
const GATE: u64 = 1;

impl Packer {
    // How many stripes are stored.
    pub fn stripes(&self) -> u64
        ensures { result ≡ self.now.stripes }
    {
        self.stripes
    }

    // The log of what is stored.
    pub fn log(&self) -> Log
        ensures { result ≡ record { row = self.now.row; client = 1; stripes = self.now.stripes } }
    {
        Log {
            row: self.row,
            client: GATE,
            stripes: self.stripes,
        }
    }
}
