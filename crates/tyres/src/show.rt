// What the program prints.
use crate::boxes::KINDS;
use geometry::key::Key;
use geometry::part::Part;
use geometry::placement::PlacedStripe;
use geometry::row::RowLength;
use std::io;
use workshop::low::LowTyre;

// One fragment: its key and which part of the stripe it is.
fn show_fragment(rt: &HostRuntime, stripe: PlacedStripe, server: u8) -> io::Result<()> {
    let client = stripe.key.client();
    let number = stripe.key.stripe();
    match stripe.part_on(server) {
        Some(Part::Parity) => print!(rt; " ({client}, {number}) parity;"),
        Some(Part::Data(index)) => print!(rt; " ({client}, {number}) data {index};"),
        None => print!(rt; " ({client}, {number});"),
    }
}

// What kind each box is, and what lies on it.
pub(crate) fn show_boxes(rt: &HostRuntime, row: RowLength, boxes: &[Vec<Key>]) -> io::Result<()> {
    for ((server, kind), keys) in (0..row.servers()).zip(KINDS).zip(boxes) {
        print!(rt; "box {server}, {kind}:")?;
        for key in keys {
            show_fragment(rt, PlacedStripe { row, key: *key }, server)?;
        }
        println!(rt)?;
    }
    Ok(())
}

pub(crate) fn show_list(rt: &HostRuntime, list: &[LowTyre]) -> io::Result<()> {
    if list.is_empty() {
        return println!(rt; "  none");
    }
    for low in list {
        let truck = low.tyre.truck;
        let tyre = low.tyre.tyre;
        let kpa = low.kpa;
        println!(rt; "  truck {truck} tyre {tyre}: {kpa} kPa")?;
    }
    Ok(())
}
