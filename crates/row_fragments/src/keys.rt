// The keys that servers hold, in order.
ghost use Rattle.std.specs.Prelude.{◌≡◌};
ghost use Rattle.geometry.specs.Keys.{number_of, number_in};
ghost use Rattle.ordered.specs.Maps.{least};
ghost use Rattle.rack.specs.Lists.{lower};
ghost use Rattle.rack.specs.Restarting.{keys_held};
ghost use Rattle.row.specs.Rows.{StaysCoherent};
ghost use Rattle.row_fragments.specs.Servers.{servers_in};

use crate::server_set::ServerSet;
use geometry::key::Key;
use row::row::ServerRow;

// The earlier of two keys, where there are any.
fn earlier(a: Option<Key>, b: Option<Key>) -> Option<Key>
    ensures { number_in result ≡ lower (number_in a) (number_in b) }
{
    match (a, b) {
        (Some(x), Some(y)) => Some(if y.precedes(&x) { y } else { x }),
        (Some(x), None) | (None, Some(x)) => Some(x),
        (None, None) => None,
    }
}

// The least key not below `from` that any of these servers holds.
pub fn next_key<R: ServerRow>(row: &mut R, servers: ServerSet, from: Key) -> Option<Key>
    ensures key { number_in result ≡ least (λ k. k) (keys_held (R.ServerRow.meanings row.old) (servers_in servers)) (number_of from) }
    ensures after { R.ServerRow.meanings row.new ≡ R.ServerRow.meanings row.old }
    ensures coherent { StaysCoherent (R.ServerRow.coherent row.old) (R.ServerRow.coherent row.new) }
{
    let mut least = None;
    for (server, member) in servers.members.iter().enumerate() {
        if *member {
            least = earlier(least, row.from(server, from));
        }
    }
    least
}
