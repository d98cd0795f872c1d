// Getting one fragment of a stripe, with one server out if need be.
ghost use Rattle.std.specs.Prelude.{◌≡◌, [], ◌∷◌};
ghost use Rattle.geometry.specs.Keys.{number_of};
ghost use Rattle.rack.specs.Fragments.{bytes_on, together, reads_for, fragment_from};
ghost use Rattle.row.specs.Rows.{StaysCoherent};
ghost use Rattle.row_fragments.specs.Fetches.{unless_lacking};
ghost use Rattle.row_fragments.specs.Lacking.{first_lacking};
ghost use Rattle.row_fragments.specs.Servers.{servers_in, used_in};

use crate::holders::first_lacking;
use crate::in_use::InUse;
use crate::lacks::Lacks;
use crate::server_set::ServerSet;
use geometry::key::Key;
use geometry::sizes::{FRAGMENT_LENGTH, Fragment};
use parity::xor_into;
use row::row::ServerRow;

// What this server holds under the key.
pub(crate) fn fetch<R: ServerRow>(row: &mut R, server: u8, key: Key) -> Result<Fragment, Lacks>
    ensures fragment { let was = R.ServerRow.meanings row.old in let k = number_of key in result ≡ unless_lacking (first_lacking was k (server ∷ [])) key (bytes_on was k server) }
    ensures after { R.ServerRow.meanings row.new ≡ R.ServerRow.meanings row.old }
    ensures coherent { StaysCoherent (R.ServerRow.coherent row.old) (R.ServerRow.coherent row.new) }
{
    let mut fragment = [0; FRAGMENT_LENGTH];
    match row.fetch(server as usize, key, &mut fragment) {
        Ok(()) => Ok(fragment),
        Err(_) => Err(Lacks { server, key }),
    }
}

// The exclusive or of what these servers hold under the key, or the lowest of them that lacks it.
pub fn together<R: ServerRow>(row: &mut R, servers: ServerSet, key: Key) -> Result<Fragment, Lacks>
    ensures fragment { let was = R.ServerRow.meanings row.old in let k = number_of key in let us = servers_in servers in result ≡ unless_lacking (first_lacking was k us) key (together was us k) }
    ensures after { R.ServerRow.meanings row.new ≡ R.ServerRow.meanings row.old }
    ensures coherent { StaysCoherent (R.ServerRow.coherent row.old) (R.ServerRow.coherent row.new) }
{
    let mut sum = [0; FRAGMENT_LENGTH];
    for (server, member) in servers.members.iter().enumerate() {
        if *member {
            xor_into(&mut sum, &fetch(row, server as u8, key)?);
        }
    }
    Ok(sum)
}

// The lowest server that lacks the key, of those that are read for this server's fragment: all in use
// where it is the one that is out, and else itself.
pub fn first_lacking_for<R: ServerRow>(
    row: &mut R,
    in_use: InUse,
    key: Key,
    server: u8,
) -> Option<u8>
    ensures server { result ≡ first_lacking (R.ServerRow.meanings row.old) (number_of key) (reads_for (used_in in_use) in_use.out server) }
    ensures after { R.ServerRow.meanings row.new ≡ R.ServerRow.meanings row.old }
    ensures coherent { StaysCoherent (R.ServerRow.coherent row.old) (R.ServerRow.coherent row.new) }
{
    if in_use.is_out(server) {
        first_lacking(row, in_use.servers(), key)
    } else if row.holds(server as usize, key) {
        None
    } else {
        Some(server)
    }
}

// The stripe's fragment that belongs on this server: as it is there, or put together from all in use
// where this is the server that is out. Each of them is fetched once.
pub fn get_fragment<R: ServerRow>(
    row: &mut R,
    in_use: InUse,
    key: Key,
    server: u8,
) -> Result<Fragment, Lacks>
    ensures fragment { let was = R.ServerRow.meanings row.old in let k = number_of key in let us = used_in in_use in result ≡ unless_lacking (first_lacking was k (reads_for us in_use.out server)) key (fragment_from was us in_use.out k server) }
    ensures after { R.ServerRow.meanings row.new ≡ R.ServerRow.meanings row.old }
    ensures coherent { StaysCoherent (R.ServerRow.coherent row.old) (R.ServerRow.coherent row.new) }
{
    if in_use.is_out(server) {
        together(row, in_use.servers(), key)
    } else {
        fetch(row, server, key)
    }
}
