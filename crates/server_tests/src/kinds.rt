// The same calls on every kind of server.
use crate::log_area::LogArea;
use crate::model::area::RECORD;
use crate::model::map::{MOST_PLACES, Map};
use crate::run::{Run, Wrong};
use crate::served::{Served, blank};
use cache::layer::Cache;
use log_server::log::LogServer;
use server::fragment_server::FragmentServer;
use server::stored::StoredFragment;
use shelf::shelf::Shelf;

const SEEDS: [u64; 2] = [1, 2];

const CALLS: u32 = 300;

// How often the area of a log is opened for its share of the calls, closed and looked at.
const OPENINGS: u32 = 6;

// Places of a server, and how many bytes an area has after its last record: areas of no byte and of
// less than a record among them.
const SIZES: [(usize, usize); 9] = [
    (0, 0),
    (0, 1),
    (0, 519),
    (1, 0),
    (1, 1),
    (2, 519),
    (3, 7),
    (5, 0),
    (8, 7),
];

// So many calls of the run on a server.
fn on<S: FragmentServer + Drop>(server: S, run: &mut Run, calls: u32) -> Result<(), Wrong> {
    run.go(&mut Served { server }, calls)
}

// And on a cache above it.
fn on_cache<S: FragmentServer + Drop>(below: S, run: &mut Run, calls: u32) -> Result<(), Wrong> {
    on(Cache::new(below), run, calls)
}

fn on_shelf(mut run: Run, memory: &mut [StoredFragment]) -> Result<(), Wrong> {
    on(Shelf::new(memory), &mut run, CALLS)?;
    run.met_all_cases()
}

fn on_cached_shelf(mut run: Run, memory: &mut [StoredFragment]) -> Result<(), Wrong> {
    on_cache(Shelf::new(memory), &mut run, CALLS)?;
    run.met_all_cases()
}

fn on_log(mut run: Run, area: &LogArea) -> Result<(), Wrong> {
    let mut after = *area;
    for _ in 0..OPENINGS {
        on(
            LogServer::open(after.bytes_mut()),
            &mut run,
            CALLS / OPENINGS,
        )?;
        after.check_left(&mut run.map, area)?;
    }
    run.met_all_cases()
}

fn on_cached_log(mut run: Run, area: &LogArea) -> Result<(), Wrong> {
    let mut after = *area;
    for _ in 0..OPENINGS {
        on_cache(
            LogServer::open(after.bytes_mut()),
            &mut run,
            CALLS / OPENINGS,
        )?;
        after.check_left(&mut run.map, area)?;
    }
    run.met_all_cases()
}

// What is wrong on shelf, log, cached shelf and cached log, all asked the same.
fn on_all(seed: u64, places: usize, tail: usize) -> [Result<(), Wrong>; 4] {
    let mut memory = [blank(); MOST_PLACES];
    let map = Map::new(places);
    let run = Run::new(map, seed);
    let area = LogArea::of(&map, tail);
    [
        on_shelf(run, &mut memory[..places.min(MOST_PLACES)]),
        on_log(run, &area),
        on_cached_shelf(run, &mut memory[..places.min(MOST_PLACES)]),
        on_cached_log(run, &area),
    ]
}

#[test]
fn kinds_as_the_model(rt: HostRuntime) {
    for seed in SEEDS {
        for (places, tail) in SIZES {
            assert_eq!(rt;
                on_all(seed, places, tail),
                [Ok(()); 4],
                "seed {seed}, {places} places, {tail} bytes after them"
            );
        }
    }
    assert_eq!(rt; LogServer::length_for(8), 8 * RECORD, "length of an area");
}
