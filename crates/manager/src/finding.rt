// Finding a block's entry.
ghost use Rattle.std.specs.Prelude.{◌≡◌};
ghost use Rattle.std.specs.Option.{option_map};
ghost use Rattle.ordered.specs.Maps.{find};
ghost use Rattle.rack.specs.Entries.{entry_of, entry_block, block_number};
ghost use Rattle.manager.specs.Tables.{entries_in};

use ordered::table::OrderedTable;
use rack::entry::{Entry, block_number};

// The entry of a block, found by halving.
#[tactic(auto, using(ordered::proofs::Maps::find_map))]
pub fn entry_of_block(table: &OrderedTable<'_, Entry>, file: u16, block: u16) -> Option<Entry>
    ensures { option_map entry_of result ≡ find entry_block (entries_in table.now) (block_number file block) }
{
    table.get(block_number(file, block)).copied()
}
