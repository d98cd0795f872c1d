// Rounds of calls on a filled server. In each round keys are drawn; what they hold is fetched, deleted,
// and stored again with a byte changed. So the server holds the same keys after it.
use crate::servers::calls::{delete_all, fetch_all, fetch_one, store_all};
use crate::servers::digest::Digest;
use crate::servers::keys::{draw, fragment_of, rising};
use crate::servers::load::{CALLS_IN_ROUND, Load};
use crate::servers::noise::Noise;
use crate::servers::report::{Report, Spent};
use geometry::key::Key;
use geometry::sizes::{FRAGMENT_LENGTH, Fragment};
use ordered::fault::MapFault;
use server::fragment_server::FragmentServer;
use std::time::{Duration, Instant};

const SEED: u64 = 1;

// Does the work, and adds its time.
fn timed<F: FnOnce() -> Result<(), MapFault>>(
    rt: &HostRuntime,
    spent: &mut Duration,
    work: F,
) -> anyhow::Result<()>
    requires { F.IsAlwaysCallable work }
{
    let start = Instant::now(rt)?;
    work()?;
    *spent = spent.saturating_add(start.elapsed(rt)?);
    Ok(())
}

fn change(fragments: &mut [Fragment]) {
    for fragment in fragments.iter_mut() {
        fragment[0] = fragment[0].wrapping_add(1);
    }
}

// One round. The last key is the one that is fetched over and over, so that a cache has let go of it
// before it is fetched with the others.
fn round<S: FragmentServer>(
    rt: &HostRuntime,
    server: &mut S,
    keys: &[Key],
    spent: &mut Spent,
    digest: &mut Digest,
) -> anyhow::Result<()> {
    let mut buffer = [[0; FRAGMENT_LENGTH]; CALLS_IN_ROUND];
    let fragments = &mut buffer[..keys.len().min(CALLS_IN_ROUND)];
    if let Some(last) = keys.last() {
        timed(
            rt,
            &mut spent.fetches_of_one,
            || fetch_one(server, *last, fragments),
        )?;
        digest.take_in(fragments);
    }
    timed(
        rt,
        &mut spent.fetches,
        || fetch_all(server, keys, fragments),
    )?;
    digest.take_in(fragments);
    change(fragments);
    timed(rt, &mut spent.deletes, || delete_all(server, keys))?;
    timed(rt, &mut spent.stores, || store_all(server, keys, fragments))
}

// Fills an empty server, keys rising.
pub(crate) fn fill<S: FragmentServer>(
    rt: &HostRuntime,
    server: &mut S,
    load: Load,
) -> anyhow::Result<()> {
    for key in rising(rt.alloc(), load.fragments)?.iter() {
        server.store(*key, &fragment_of(*key))?;
    }
    Ok(())
}

// Does the rounds on a server that is filled.
pub(crate) fn measure<S: FragmentServer>(
    rt: &HostRuntime,
    server: &mut S,
    load: Load,
) -> anyhow::Result<Report> {
    let mut keys = rising(rt.alloc(), load.fragments)?;
    let mut noise = Noise::new(SEED);
    let mut spent = Spent::new();
    let mut digest = Digest::new();
    for _ in 0..load.rounds {
        let drawn = draw(&mut keys, CALLS_IN_ROUND, &mut noise);
        round(rt, server, drawn, &mut spent, &mut digest)?;
    }
    Ok(Report {
        load,
        calls: u64::from(load.rounds) * CALLS_IN_ROUND as u64,
        spent,
        digest,
        free: server.free(),
    })
}
