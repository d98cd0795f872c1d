// Speed of the formats' inner work and of the fragment servers. Without arguments it says what it did;
// with the word `times` it does more of it, and says how long each round or call took, in nanoseconds.
#![tactic(auto)]

mod parity_rounds;
mod servers;

use std::env;

// Whether the first argument asks for times.
fn timed(rt: &HostRuntime) -> anyhow::Result<bool> {
    let word = env::args(rt)?.nth(1);
    Ok(word.is_some_and(|word| word.as_str() == "times"))
}

fn main(rt: HostRuntime) -> anyhow::Result<()> {
    let times = timed(&rt)?;
    parity_rounds::run(&rt, times)?;
    servers::run(&rt, times)
}
