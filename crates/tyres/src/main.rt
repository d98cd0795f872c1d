// The workshop's task: gate readings on standard input, packed into stripes over three boxes of
// different kinds. One box is lost, filled again from the others and opened afresh, and the list of
// tyres that want air and the manager's table stay the same.
#![tactic(auto)]

mod boxes;
mod live;
mod show;
mod task;
#[cfg(test)]
mod tests;

use anyhow::Context;
use boxes::{area, most_stripes, places};
use geometry::row::RowLength;
use shelf::shelf::Shelf;
use task::{readings, run};

// How many boxes there are: a shelf, a log and a cached shelf.
const BOXES: u64 = 3;

fn main(rt: HostRuntime) -> anyhow::Result<()> {
    let row = RowLength::new(BOXES).context("no rack has a row of so many boxes")?;
    let readings = readings(&rt)?;
    let stripes = most_stripes(row, readings.len());
    let mut first = places(rt.alloc(), stripes)?;
    let mut second = area(rt.alloc(), stripes)?;
    let mut third = places(rt.alloc(), stripes)?;
    let shelf = Shelf::new(&mut first);
    let below = Shelf::new(&mut third);
    run(&rt, row, readings.as_slice(), shelf, &mut second, below)
}
