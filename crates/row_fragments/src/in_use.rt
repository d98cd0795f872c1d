// Which servers of a row are in use: all of them, or all but the one that is out.
ghost use Rattle.std.specs.Prelude.{◌≡◌, slice_index_or};
ghost use Rattle.rack.specs.Worlds.{is_out};
ghost use Rattle.row_fragments.specs.Servers.{servers_in, used_in, reads_in};

use crate::server_set::ServerSet;
use geometry::row::RowLength;
use geometry::sizes::MOST_SERVERS;

#[derive(Clone, Copy, PartialEq, Eq, Debug)]
pub struct InUse {
    pub row: RowLength,
    pub out: Option<u8>,
}

impl InUse {
    // Whether this is the server that is out.
    pub fn is_out(&self, server: u8) -> bool
        ensures { result ≡ is_out self.now.out server }
    {
        self.out == Some(server)
    }

    // The lowest server in use, by which it is told which stripes are sealed.
    pub fn lowest(&self) -> u8
        ensures { result ≡ slice_index_or (used_in self.now) 0 0 }
    {
        if self.is_out(0) { 1 } else { 0 }
    }

    pub fn servers(&self) -> ServerSet
        ensures { servers_in result ≡ used_in self.now }
    {
        let mut members = [false; MOST_SERVERS as usize];
        for server in 0..self.row.servers() {
            members[server as usize] = !self.is_out(server);
        }
        ServerSet { members }
    }

    // The servers that are read for the fragment on this one: all in use where it is out, else itself.
    pub fn reads_for(&self, server: u8) -> ServerSet
        ensures { servers_in result ≡ reads_in self.now server }
    {
        if self.is_out(server) {
            self.servers()
        } else {
            ServerSet::one(server)
        }
    }
}
