// Making client numbers, and reading them back.
ghost use Rattle.std.specs.Prelude.{◌≡◌, if◌then◌else◌, Some, None, nat_lt};
ghost use Rattle.rack.specs.Worlds.{clients_count};
ghost use Rattle.clients.specs.Means.{number_in};

use crate::number::ClientNumber;
use geometry::sizes::CLIENTS;

impl ClientNumber {
    // The client of this number, or none where there is no such client.
    pub fn new(number: u32) -> Option<ClientNumber>
        ensures { number_in result ≡ (if nat_lt number clients_count then Some number else None) }
    {
        if u64::from(number) < CLIENTS {
            Some(ClientNumber {
                number: number as u8,
            })
        } else {
            None
        }
    }

    pub fn get(self) -> u8
        ensures { result ≡ self.number }
    {
        self.number
    }
}
