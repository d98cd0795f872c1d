// A set of servers of a row.
ghost use Rattle.std.specs.Prelude.{◌≡◌, length};

use geometry::sizes::MOST_SERVERS;

mod calls;

#[derive(Clone, Copy, PartialEq, Eq, Debug)]
pub struct ServerSet {
    // By the number of the server, on the longest row.
    pub(crate) members: [bool; MOST_SERVERS as usize],
    ghost long: { length members ≡ 8 },
}
