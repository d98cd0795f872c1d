// Servers of a row by number, and numbers that are not in the row.
use crate::call::{Answer, Asked, Call};
use crate::log_area::LogArea;
use crate::model::map::{MOST_PLACES, Map};
use crate::run::{Run, Wrong};
use crate::served::{blank, key_of, name_of, plain};
use log_server::log::LogServer;
use row::beside::Beside;
use row::one::One;
use row::row::ServerRow;
use shelf::shelf::Shelf;

// One server of a row, or none where the row has no such number.
#[derive(Drop)]
struct Numbered<R> {
    row: R,
    number: usize,
}

impl<R: ServerRow> Asked for Numbered<R> {
    fn ask(&mut self, call: &Call) -> Option<Answer> {
        let row = &mut self.row;
        let at = self.number;
        Some(match call {
            Call::Store(name, bytes) => {
                Answer::Changed(plain(row.store(at, key_of(*name)?, bytes)))
            }
            Call::Fetch(name, before) => {
                let mut buffer = *before;
                let answer = row.fetch(at, key_of(*name)?, &mut buffer);
                Answer::Fetched(plain(answer), buffer)
            }
            Call::Delete(name) => Answer::Changed(plain(row.delete(at, key_of(*name)?))),
            Call::Wipe => {
                row.wipe(at);
                Answer::Wiped
            }
            Call::Holds(name) => Answer::Holds(row.holds(at, key_of(*name)?)),
            Call::From(name) => Answer::From(row.from(at, key_of(*name)?).map(name_of)),
            Call::Capacity => Answer::Count(u64::from(row.capacity(at))),
            Call::Free => Answer::Count(u64::from(row.free(at))),
        })
    }
}

// Numbers asked: of a row of three, two of them are past the end.
const NUMBERS: [usize; 5] = [0, 1, 2, 3, usize::MAX];

const TURNS: usize = 50;

const CALLS_IN_TURN: u32 = 8;

// Makes calls on one number after another, turn by turn, so that what a call does to another server is
// seen there.
fn on_row<R: ServerRow + Drop>(row: R, mut runs: [Run; 5]) -> Result<(), Wrong> {
    let mut numbered = Numbered { row, number: 0 };
    for _ in 0..TURNS {
        for (number, run) in NUMBERS.iter().zip(runs.iter_mut()) {
            numbered.number = *number;
            run.go(&mut numbered, CALLS_IN_TURN)?;
        }
    }
    for (number, run) in NUMBERS.iter().zip(runs.iter_mut()) {
        numbered.number = *number;
        run.compare(&mut numbered)?;
        run.met_all_cases()?;
    }
    Ok(())
}

fn run_of(places: usize, seed: u64) -> Run {
    Run::new(Map::new(places), seed)
}

fn on_three() -> Result<(), Wrong> {
    let mut first = [blank(); 2];
    let mut second = LogArea::of(&Map::new(3), 5);
    let mut third = [blank(); MOST_PLACES];
    let row = Beside {
        left: Beside {
            left: One {
                server: Shelf::new(&mut first),
            },
            right: One {
                server: LogServer::open(second.bytes_mut()),
            },
        },
        right: One {
            server: Shelf::new(&mut third),
        },
    };
    on_row(
        row,
        [
            run_of(2, 5),
            run_of(3, 6),
            run_of(8, 7),
            run_of(0, 8),
            run_of(0, 9),
        ],
    )
}

fn on_one() -> Result<(), Wrong> {
    let mut memory = [blank(); 2];
    let row = One {
        server: Shelf::new(&mut memory),
    };
    on_row(
        row,
        [
            run_of(2, 5),
            run_of(0, 6),
            run_of(0, 7),
            run_of(0, 8),
            run_of(0, 9),
        ],
    )
}

#[test]
fn servers_by_number(rt: HostRuntime) {
    assert_eq!(rt;
        (on_three(), on_one()),
        (Ok(()), Ok(())),
        "rows of three and of one"
    );
}
