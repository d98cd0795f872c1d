// Fetches, deletes and stores of every kind of fragment server.
use cache::layer::Cache;
use load::Load;
use log_server::log::LogServer;
use opening::{Openings, opening};
use rounds::{fill, measure};
use shelf::shelf::Shelf;

mod calls;
mod digest;
mod keys;
mod load;
mod memory;
mod noise;
mod opening;
mod report;
mod rounds;

const SHORT: [Load; 2] = [
    Load {
        fragments: 100,
        rounds: 4,
    },
    Load {
        fragments: 1_000,
        rounds: 4,
    },
];

const LONG: [Load; 2] = [
    Load {
        fragments: 1_000,
        rounds: 20,
    },
    Load {
        fragments: 100_000,
        rounds: 20,
    },
];

// A shelf, and in the same memory a shelf under a cache.
fn shelves(rt: &HostRuntime, load: Load, times: bool) -> anyhow::Result<()> {
    let mut places = memory::places(rt.alloc(), load.fragments)?;
    let mut shelf = Shelf::new(&mut places);
    fill(rt, &mut shelf, load)?;
    measure(rt, &mut shelf, load)?.show(rt, "shelf", times)?;
    let mut cached = Cache::new(Shelf::new(&mut places));
    fill(rt, &mut cached, load)?;
    measure(rt, &mut cached, load)?.show(rt, "cached shelf", times)
}

fn plain_log(rt: &HostRuntime, load: Load, times: bool) -> anyhow::Result<()> {
    let mut area = memory::filled_area(rt.alloc(), load.fragments)?;
    let rising = opening(rt, &mut area)?;
    let mut log = LogServer::open(&mut area);
    measure(rt, &mut log, load)?.show(rt, "log", times)?;
    let after = opening(rt, &mut area)?;
    if times {
        Openings { rising, after }.show(rt)?;
    }
    Ok(())
}

fn cached_log(rt: &HostRuntime, load: Load, times: bool) -> anyhow::Result<()> {
    let mut area = memory::filled_area(rt.alloc(), load.fragments)?;
    let mut cached = Cache::new(LogServer::open(&mut area));
    measure(rt, &mut cached, load)?.show(rt, "cached log", times)
}

pub(crate) fn run(rt: &HostRuntime, times: bool) -> anyhow::Result<()> {
    let loads = if times { LONG } else { SHORT };
    for load in loads {
        shelves(rt, load, times)?;
        plain_log(rt, load, times)?;
        cached_log(rt, load, times)?;
    }
    Ok(())
}
