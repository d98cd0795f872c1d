// Parity of a full stripe on eight servers, beside copying the same bytes.
use geometry::sizes::{FRAGMENT_LENGTH, Fragment, MOST_DATA};
use parity::xor_all;
use std::io;
use std::time::Instant;

const ROUNDS: usize = 20_000;

// Fragments with some pattern in them.
fn pattern() -> [Fragment; MOST_DATA] {
    let mut all = [[0u8; FRAGMENT_LENGTH]; MOST_DATA];
    let mut seed: u32 = 1;
    for byte in all.as_flattened_mut() {
        seed = seed.wrapping_mul(1_664_525).wrapping_add(1_013_904_223);
        *byte = (seed >> 24) as u8;
    }
    all
}

// Parity over and over, each round of data that the last one has changed.
fn parities(data: &mut [Fragment; MOST_DATA]) -> u8 {
    let mut out = [0u8; FRAGMENT_LENGTH];
    for round in 0..ROUNDS {
        xor_all(&*data, &mut out);
        data[round % MOST_DATA] = out;
    }
    sum(&out)
}

// Copies of the same bytes over and over, each round with one fragment changed.
fn copies(data: &mut [Fragment; MOST_DATA]) -> u8 {
    let mut out = [[0u8; FRAGMENT_LENGTH]; MOST_DATA];
    for round in 0..ROUNDS {
        out = *data;
        data[round % MOST_DATA] = out[(round + 1) % MOST_DATA];
    }
    sum(&out[0])
}

// All bytes added up, so that each of them has to be made.
fn sum(fragment: &Fragment) -> u8 {
    fragment.iter().fold(0, |all, byte| all.wrapping_add(*byte))
}

// Does the work, and says that it did; with `times`, how long each of its rounds took.
fn measure<F: FnOnce() -> u8>(rt: &HostRuntime, what: &str, times: bool, work: F) -> io::Result<()>
    requires { F.IsAlwaysCallable work }
{
    let start = Instant::now(rt)?;
    let check = work();
    if times {
        let each = start.elapsed(rt)?.as_nanos() / ROUNDS as u128;
        println!(rt; "{what}: {ROUNDS} rounds, {each} ns each (check {check})")
    } else {
        println!(rt; "{what}: {ROUNDS} rounds (check {check})")
    }
}

pub(crate) fn run(rt: &HostRuntime, times: bool) -> io::Result<()> {
    let mut data = pattern();
    measure(rt, "parity of 7 fragments", times, || parities(&mut data))?;
    measure(rt, "copy of 7 fragments", times, || copies(&mut data))
}
