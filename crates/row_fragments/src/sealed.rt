// Which stripes are sealed: those whose key the lowest server in use holds.
ghost use Rattle.std.specs.Prelude.{◌≡◌, List, [], ◌∷◌, map, length, slice_index_or};
ghost use Rattle.geometry.specs.Keys.{number_of};
ghost use Rattle.rack.specs.Worlds.{lowest_of};
ghost use Rattle.row.specs.Rows.{StaysCoherent};
ghost use Rattle.row_fragments.specs.Servers.{servers_in, used_in};
ghost use Rattle.row_fragments.specs.Walks.{walk_at, keys_left};
ghost use Rattle.server.specs.Meaning.{Meaning, Sound, holds, piece_key};
ghost use Rattle.std.specs.List.{AllByRecursion};

use crate::in_use::InUse;
use crate::server_set::ServerSet;
use crate::walk::KeyWalk;
use geometry::key::Key;
use row::row::ServerRow;

pub fn is_sealed<R: ServerRow>(row: &mut R, in_use: InUse, key: Key) -> bool
    ensures sealed { result ≡ holds (lowest_of (R.ServerRow.meanings row.old) (used_in in_use)) (number_of key) }
    ensures after { R.ServerRow.meanings row.new ≡ R.ServerRow.meanings row.old }
    ensures coherent { StaysCoherent (R.ServerRow.coherent row.old) (R.ServerRow.coherent row.new) }
{
    row.holds(in_use.lowest() as usize, key)
}

// How many stripes are sealed.
pub fn sealed_count<R: ServerRow>(row: &mut R, in_use: InUse) -> u32
    ensures count { result ≡ length (map piece_key (lowest_of (R.ServerRow.meanings row.old) (used_in in_use)).held) }
    ensures after { R.ServerRow.meanings row.new ≡ R.ServerRow.meanings row.old }
    ensures coherent { StaysCoherent (R.ServerRow.coherent row.old) (R.ServerRow.coherent row.new) }
{
    let lowest = in_use.lowest() as usize;
    row.capacity(lowest) - row.free(lowest)
}

// A walk over the keys of the sealed stripes.
pub fn sealed_walk(in_use: InUse) -> KeyWalk
    ensures at { walk_at result ≡ 0 }
    ensures servers { servers_in result.servers ≡ slice_index_or (used_in in_use) 0 0 ∷ [] }
    ensures keys { (row : List Meaning) → AllByRecursion Sound row → keys_left row result ≡ map piece_key (lowest_of row (used_in in_use)).held }
{
    KeyWalk::new(ServerSet::one(in_use.lowest()))
}
