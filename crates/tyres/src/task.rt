// The readings, and what is done with them over a row of boxes.
use crate::boxes::in_a_row;
use crate::live::{Indexed, index_boxes, show_live};
use crate::show::{show_boxes, show_list};
use anyhow::bail;
use cache::layer::Cache;
use geometry::row::RowLength;
use geometry::sizes::Fragment;
use log_server::log::LogServer;
use row::beside::Beside;
use row::row::ServerRow;
use row_packing::contents::{contents, fragments_on};
use row_packing::fault::PackFault;
use row_packing::log::Log;
use row_packing::pack::Packer;
use row_packing::refill::fill_again;
use row_packing::unpack::read_back;
use server::fragment_server::FragmentServer;
use workshop::input::add_line;
use workshop::low::LowTyre;
use workshop::reading::Reading;

// Which box is lost: the log.
const LOST: u8 = 1;

// What is known of the boxes while all are there: the low tyres, the manager's table, and the fragments
// on the box that will be lost.
#[derive(Drop)]
pub(crate) struct Kept {
    log: Log,
    low: Vec<LowTyre>,
    indexed: Indexed,
    fragments: Vec<Fragment>,
}

// The readings on standard input, one a line.
pub(crate) fn readings(rt: &HostRuntime) -> anyhow::Result<Vec<Reading>> {
    let mut all = Vec::new(rt.alloc());
    for (before, line) in rt.lines(rt.alloc()).enumerate() {
        add_line(&mut all, before.saturating_add(1), line?.as_bytes())?;
    }
    Ok(all)
}

// The readings in stripes on the boxes.
pub(crate) fn packed<R: ServerRow>(
    boxes: &mut R,
    row: RowLength,
    readings: &[Reading],
) -> Result<Packer, PackFault> {
    let mut packer = Packer::new(row);
    for reading in readings {
        packer.add(boxes, reading)?;
    }
    packer.seal(boxes)?;
    Ok(packer)
}

// The low tyres, read from the boxes that are there.
fn low_tyres<R: ServerRow>(
    rt: &HostRuntime,
    boxes: &mut R,
    missing: Option<u8>,
    log: Log,
) -> Result<Vec<LowTyre>, PackFault> {
    let newest = read_back(rt.alloc(), boxes, missing, log)?;
    Ok(newest.low_list(rt.alloc())?)
}

// Packs the readings, says what lies where, and lists the low tyres.
fn pack_and_list<R: ServerRow>(
    rt: &HostRuntime,
    row: RowLength,
    boxes: &mut R,
    readings: &[Reading],
) -> anyhow::Result<Kept> {
    let packer = packed(boxes, row, readings)?;
    let log = packer.log();
    let count = readings.len();
    let stripes = packer.stripes();
    let servers = row.servers();
    println!(rt; "{count} readings in {stripes} stripes over {servers} boxes")?;
    let held = contents(rt.alloc(), boxes, log)?;
    show_boxes(rt, row, held.as_slice())?;
    let low = low_tyres(rt, boxes, None, log)?;
    println!(rt; "tyres below 600 kPa, all boxes there:")?;
    show_list(rt, low.as_slice())?;
    let indexed = index_boxes(rt.alloc(), boxes, None, log, count)?;
    show_live(rt, log, &indexed)?;
    let fragments = fragments_on(rt.alloc(), boxes, LOST, log)?;
    Ok(Kept {
        log,
        low,
        indexed,
        fragments,
    })
}

// How many fragments the lost box has once it is back. They must be those that it had.
fn count_again<R: ServerRow>(
    rt: &HostRuntime,
    boxes: &mut R,
    kept: &Kept,
) -> anyhow::Result<usize> {
    let fragments = fragments_on(rt.alloc(), boxes, LOST, kept.log)?;
    if fragments.as_slice() != kept.fragments.as_slice() {
        bail!("box {LOST} holds other fragments than before");
    }
    Ok(fragments.len())
}

// The low tyres once more, with a box missing if need be. They must be those of before.
fn low_again<R: ServerRow>(
    rt: &HostRuntime,
    boxes: &mut R,
    missing: Option<u8>,
    kept: &Kept,
) -> anyhow::Result<Vec<LowTyre>> {
    let low = low_tyres(rt, boxes, missing, kept.log)?;
    if low.as_slice() != kept.low.as_slice() {
        bail!("the list of low tyres is another than before");
    }
    Ok(low)
}

// The manager's table once more, with a box missing. It must be that of before.
fn index_again<R: ServerRow>(
    rt: &HostRuntime,
    boxes: &mut R,
    missing: Option<u8>,
    kept: &Kept,
) -> anyhow::Result<()> {
    let room = kept.indexed.entries.len();
    let again = index_boxes(rt.alloc(), boxes, missing, kept.log, room)?;
    if again.entries.as_slice() != kept.indexed.entries.as_slice()
        || again.live.as_slice() != kept.indexed.live.as_slice()
    {
        bail!("the manager's table is another than before");
    }
    Ok(())
}

// Loses a box, lists the low tyres without it, and fills it again from the others.
fn lose_and_refill<R: ServerRow>(
    rt: &HostRuntime,
    boxes: &mut R,
    kept: &Kept,
) -> anyhow::Result<()> {
    boxes.wipe(LOST as usize);
    let low = low_again(rt, boxes, Some(LOST), kept)?;
    println!(rt; "tyres below 600 kPa, box {LOST} lost and put together from the others:")?;
    show_list(rt, low.as_slice())?;
    println!(rt; "the two lists agree")?;
    index_again(rt, boxes, Some(LOST), kept)?;
    println!(rt; "the manager's table made without box {LOST} agrees with the first")?;
    fill_again(boxes, LOST, kept.log)?;
    let count = count_again(rt, boxes, kept)?;
    println!(rt;
        "box {LOST} wiped and filled again from the others: it holds {count} fragments, those of before"
    )?;
    let low = low_again(rt, boxes, None, kept)?;
    println!(rt; "tyres below 600 kPa, all boxes there again:")?;
    show_list(rt, low.as_slice())?;
    println!(rt; "the list agrees with the first")?;
    Ok(())
}

// Reads the boxes once the lost box is opened afresh on its bytes.
fn read_opened<R: ServerRow>(rt: &HostRuntime, boxes: &mut R, kept: &Kept) -> anyhow::Result<()> {
    let records = boxes.capacity(LOST as usize);
    let count = count_again(rt, boxes, kept)?;
    println!(rt;
        "box {LOST} closed and opened again on its bytes: {records} records, {count} fragments, those of before"
    )?;
    low_again(rt, boxes, None, kept)?;
    println!(rt; "the list read with it agrees with the first")?;
    Ok(())
}

// The task on a shelf, a log on this area, and a cache over a shelf. The log is opened twice on its
// area. The shelves' types are parameters, since the check covers no type argument that holds both
// lent memory and a cache's slots.
pub(crate) fn run<A: FragmentServer + Drop, C: FragmentServer + Drop>(
    rt: &HostRuntime,
    row: RowLength,
    readings: &[Reading],
    shelf: A,
    area: &mut [u8],
    below: C,
) -> anyhow::Result<()> {
    let mut boxes = in_a_row(shelf, LogServer::open(area), Cache::new(below));
    let kept = pack_and_list(rt, row, &mut boxes, readings)?;
    lose_and_refill(rt, &mut boxes, &kept)?;
    let Beside { left, right } = boxes;
    let Beside { left: log, right } = right;
    drop(log); // All that is left of it is its area's bytes.
    let mut boxes = in_a_row(left.server, LogServer::open(area), right.server);
    read_opened(rt, &mut boxes, &kept)
}
