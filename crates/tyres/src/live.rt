// The manager's table of what is packed, and which slots of the stripes are live by it.
use fragment::delta::Kind;
use fragment::pair::Pair;
use geometry::key::Key;
use ordered::table::OrderedTable;
use rack::entry::{Entry, SlotPlace};
use row::row::ServerRow;
use row_packing::fault::PackFault;
use row_packing::index::{index, live_counts};
use row_packing::log::Log;
use std::alloc::Global;
use std::io;

// The table's entries, one for each block, and how many slots of each stripe are live.
#[derive(Drop)]
pub(crate) struct Indexed {
    pub(crate) entries: Vec<Entry>,
    pub(crate) live: Vec<usize>,
}

// Memory for a table. What it holds before the table uses it does not matter.
fn memory(heap: Global, count: usize) -> Result<Vec<Entry>, PackFault> {
    let unused = Entry {
        file: 0,
        block: 0,
        kind: Kind::Write,
        pair: Pair {
            version: 0,
            moves: 0,
        },
        place: SlotPlace {
            key: Key::new(0, 0).unwrap(),
            index: 0,
            slot: 0,
        },
    };
    Ok(vec![in heap; unused; count]?)
}

// The table over memory for so many entries, made from the boxes that are there.
pub(crate) fn index_boxes<R: ServerRow>(
    heap: Global,
    boxes: &mut R,
    missing: Option<u8>,
    log: Log,
    room: usize,
) -> Result<Indexed, PackFault> {
    let mut entries = memory(heap, room)?;
    let mut table = OrderedTable::new(&mut entries);
    let count = index(&mut table, boxes, missing, log)?;
    let live = live_counts(heap, &table, log)?;
    entries.truncate(count);
    Ok(Indexed { entries, live })
}

// How many blocks there are, and of each stripe how many slots are the newest of their blocks.
pub(crate) fn show_live(rt: &HostRuntime, log: Log, indexed: &Indexed) -> io::Result<()> {
    let client = log.client;
    let slots = log.row.slots();
    let blocks = indexed.entries.len();
    print!(rt; "manager's table: {blocks} blocks; live slots of each stripe:")?;
    for (number, live) in indexed.live.iter().enumerate() {
        print!(rt; " ({client}, {number}) {live} of {slots};")?;
    }
    println!(rt)
}
