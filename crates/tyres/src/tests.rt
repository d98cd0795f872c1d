// What lies on which box, once readings are packed, and the table of it: memory suffices to say it, on
// each kind of box.
use crate::boxes::{area, in_a_row, places};
use crate::live::index_boxes;
use crate::task::packed;
use cache::layer::Cache;
use geometry::row::RowLength;
use log_server::log::LogServer;
use row_packing::contents::{contents, fragments_on, held_on};
use server::fragment_server::FragmentServer;
use shelf::shelf::Shelf;
use std::alloc::Global;
use std::process::Abort;
use std::test::Fail;
use workshop::reading::Reading;

const READING: Reading = Reading {
    truck: 17,
    tyre: 3,
    kpa: 780,
};

fn one_on_each<A: FragmentServer + Drop, C: FragmentServer + Drop>(
    rt: &impl Abort,
    heap: Global,
    shelf: A,
    area: &mut [u8],
    below: C,
) -> Result<(), Fail> {
    let row = RowLength::new(3).ok_or("no row of 3")?;
    let mut boxes = in_a_row(shelf, LogServer::open(area), Cache::new(below));
    let log = packed(&mut boxes, row, &[READING; 6])?.log();
    assert_eq!(rt; log.stripes, 1);
    assert_eq!(rt; held_on(heap, &mut boxes, 2, log)?.len(), 1);
    assert_eq!(rt; fragments_on(heap, &mut boxes, 1, log)?.len(), 1);
    let held = contents(heap, &mut boxes, log)?;
    assert_eq!(rt; held.len(), 3);
    assert!(rt; held.iter().all(|keys| keys.len() == 1));
    let table = index_boxes(heap, &mut boxes, Some(1), log, 1)?;
    assert_eq!(rt; table.entries.len(), 1);
    assert_eq!(rt; table.live.as_slice(), [1].as_slice());
    assert!(rt; index_boxes(heap, &mut boxes, None, log, 0).is_err());
    Ok(())
}

#[test]
fn full_stripe_on_every_box(rt: HostRuntime) -> Result<(), Fail> {
    let mut first = places(rt.alloc(), 1)?;
    let mut second = area(rt.alloc(), 1)?;
    let mut third = places(rt.alloc(), 1)?;
    let shelf = Shelf::new(&mut first);
    let below = Shelf::new(&mut third);
    one_on_each(&rt, rt.alloc(), shelf, &mut second, below)
}
