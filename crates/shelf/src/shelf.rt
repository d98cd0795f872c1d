// The shelf server.
ghost use Rattle.std.specs.Prelude.{◌^◌, ◌<◌};
ghost use Rattle.ordered.specs.Tables.{room};

use ordered::table::OrderedTable;
use server::stored::StoredFragment;

mod calls;

#[derive(Drop)]
pub struct Shelf<'a> {
    table: OrderedTable<'a, StoredFragment>,
    ghost small: { room table < 2 ^ 32 },
}
