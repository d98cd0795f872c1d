// What a set of servers has.
ghost use Rattle.std.specs.Prelude.{◌≡◌, [], ◌++◌, length};
ghost use Rattle.rack.specs.Lists.{is_among, in_order};
ghost use Rattle.row_fragments.specs.Servers.{servers_in, one_in, JoinsUp};

use crate::server_set::ServerSet;
use geometry::sizes::MOST_SERVERS;

impl ServerSet {
    // Of no servers.
    pub fn none() -> ServerSet
        ensures { servers_in result ≡ [] }
    {
        ServerSet {
            members: [false; MOST_SERVERS as usize],
        }
    }

    // Of this server alone. No row has a server 8.
    pub fn one(server: u8) -> ServerSet
        ensures { servers_in result ≡ one_in server }
    {
        let mut members = [false; MOST_SERVERS as usize];
        for (number, member) in members.iter_mut().enumerate() {
            *member = number == server as usize;
        }
        ServerSet { members }
    }

    // Those of both.
    pub fn union(self, other: ServerSet) -> ServerSet
        ensures servers { servers_in result ≡ in_order (servers_in self ++ servers_in other) }
        ensures law { JoinsUp }
    {
        let mut members = self.members;
        for (server, member) in members.iter_mut().enumerate() {
            *member = *member || other.members[server];
        }
        ServerSet { members }
    }

    pub fn contains(&self, server: u8) -> bool
        ensures { result ≡ is_among (servers_in self.now) server }
    {
        self.members.get(server as usize).copied().unwrap_or(false)
    }

    // How many servers these are.
    pub fn count(&self) -> usize
        ensures { result ≡ length (servers_in self.now) }
    {
        self.members.iter().filter(|member| **member).count()
    }
}
