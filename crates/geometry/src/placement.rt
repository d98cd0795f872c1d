// Which server of the row holds which part of a stripe.
ghost use Rattle.std.specs.Prelude.{◌≡◌};
ghost use Rattle.geometry.specs.Keys.{number_of};
ghost use Rattle.geometry.specs.Placement.{parity_server, data_server, part_on, OnePartOnEachServer};

use crate::key::Key;
use crate::part::Part;
use crate::row::RowLength;

// The stripe of a key, placed on a row. Its servers go round from the parity's: that one first, then
// those of data fragment 0, 1 and so on.
#[derive(Clone, Copy, PartialEq, Eq, Debug)]
pub struct PlacedStripe {
    pub row: RowLength,
    pub key: Key,
}

impl PlacedStripe {
    fn origin(self) -> u64
        ensures { result ≡ parity_server self.row.servers (number_of self.key) }
    {
        (u64::from(self.key.client()) + u64::from(self.key.stripe()))
            % u64::from(self.row.servers())
    }

    // The server that holds the parity fragment.
    pub fn parity_server(self) -> u8
        ensures { result ≡ parity_server self.row.servers (number_of self.key) }
    {
        self.origin() as u8
    }

    // The server that holds data fragment `index`.
    pub fn data_server(self, index: u8) -> u8
        ensures { result ≡ data_server self.row.servers (number_of self.key) index }
    {
        ((self.origin() + 1 + u64::from(index)) % u64::from(self.row.servers())) as u8
    }

    // The part of the stripe that lies on this server, if the row has the server.
    pub fn part_on(self, server: u8) -> Option<Part>
        ensures part { result ≡ part_on self.row.servers (number_of self.key) server }
        ensures law { OnePartOnEachServer }
    {
        let n = u64::from(self.row.servers());
        let at = u64::from(server);
        if at >= n {
            return None;
        }
        let steps = (at + n - self.origin()) % n;
        if steps == 0 {
            Some(Part::Parity)
        } else {
            Some(Part::Data((steps - 1) as u8))
        }
    }
}
