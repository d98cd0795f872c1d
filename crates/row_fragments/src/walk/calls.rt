// Walking from key to key. The row may change on the way: each step finds the next key of the row as
// it is then.
ghost use Rattle.std.specs.Prelude.{◌≡◌, ◌*◌, ◌<◌, ◌≤◌, OnSome};
ghost use Rattle.geometry.specs.Keys.{number_of, number_in, stripes};
ghost use Rattle.ordered.specs.Maps.{least};
ghost use Rattle.rack.specs.Restarting.{keys_held};
ghost use Rattle.row.specs.Rows.{StaysCoherent};
ghost use Rattle.row_fragments.specs.Servers.{servers_in};
ghost use Rattle.row_fragments.specs.Walks.{position, walk_at, position_after, keys_left, before_rest, StartsWithAll, LeftIsAhead};

use crate::keys::next_key;
use crate::server_set::ServerSet;
use crate::walk::KeyWalk;
use geometry::key::Key;
use row::row::ServerRow;

// Where a walk goes on after a step that gave this key. There is none after the last key.
fn after(key: Option<Key>) -> Option<Key>
    ensures { position result ≡ position_after key }
{
    Key::try_from(u64::from(key?) + 1).ok()
}

impl KeyWalk {
    // A walk from the first key on.
    pub fn new(servers: ServerSet) -> KeyWalk
        ensures servers { result.servers ≡ servers }
        ensures at { walk_at result ≡ 0 }
        ensures law { StartsWithAll }
    {
        KeyWalk {
            servers,
            next: Key::new(0, 0),
        }
    }

    // The next key that one of the servers holds, if there is any.
    pub fn next<R: ServerRow>(&mut self, row: &mut R) -> Option<Key>
        ensures key { number_in result ≡ least (λ k. k) (keys_held (R.ServerRow.meanings row.old) (servers_in self.old.servers)) (walk_at self.old) }
        ensures left { keys_left (R.ServerRow.meanings row.old) self.old ≡ before_rest result (keys_left (R.ServerRow.meanings row.old) self.new) }
        ensures moves { walk_at self.new ≡ position_after result }
        ensures nearer { OnSome result ((walk_at self.old < walk_at self.new) × (walk_at self.new ≤ 8 * stripes)) }
        ensures ahead { LeftIsAhead }
        ensures servers { self.new.servers ≡ self.old.servers }
        ensures after { R.ServerRow.meanings row.new ≡ R.ServerRow.meanings row.old }
        ensures coherent { StaysCoherent (R.ServerRow.coherent row.old) (R.ServerRow.coherent row.new) }
    {
        let Some(from) = self.next else {
            return None;
        };
        let key = next_key(row, self.servers, from);
        self.next = after(key);
        key
    }
}
