// Making row lengths and reading them back.
ghost use Rattle.std.specs.Prelude.{◌≡◌, if◌then◌else◌, Some, None};
ghost use Rattle.geometry.specs.Rows.{is_row, servers_in};

use crate::row::RowLength;
use crate::sizes::{LEAST_SERVERS, MOST_SERVERS};

impl RowLength {
    // A row of this many servers, or none where a rack has no such row, as std's `NonZero::new` gives none.
    pub fn new(servers: u64) -> Option<RowLength>
        ensures { servers_in result ≡ (if is_row servers then Some servers else None) }
    {
        if servers >= LEAST_SERVERS && servers <= MOST_SERVERS {
            Some(RowLength {
                servers: servers as u8,
            })
        } else {
            None
        }
    }

    pub fn servers(&self) -> u8
        ensures { result ≡ self.now.servers }
    {
        self.servers
    }
}
