// Runs pseudo-random histories on the model of the service, and prints what they came to. The
// promises over histories are looked at after each call.
#![tactic(auto)]

use anyhow::bail;
use history_model::history::run;
use history_model::tally::Tally;
use std::io;

const HISTORIES: u64 = 100;

const CALLS: u64 = 500;

// Seals, rebuilds and restarts, and how many of them were cut.
fn show_changes(rt: &HostRuntime, tally: &Tally) -> io::Result<()> {
    let seals = tally.seals;
    let cleanings = tally.cleanings;
    let copied = tally.copied;
    let behind = tally.behind;
    println!(rt;
        "  {seals} seals, {cleanings} cleanings; {copied} slots copied, {behind} took no entry"
    )?;
    let restarts = tally.restarts;
    let garbled = tally.garbled;
    println!(rt; "  {restarts} restarts; what a box out holds was changed {garbled} times")?;
    let seals = tally.seals_cut;
    let rebuilds = tally.rebuilds_cut;
    let restarts = tally.restarts_cut;
    println!(rt; "  cut: {seals} seals, {rebuilds} rebuilds, {restarts} restarts")
}

fn show(rt: &HostRuntime, servers: u8, tally: &Tally) -> io::Result<()> {
    let histories = tally.histories;
    let calls = tally.calls;
    let accepted = tally.accepted;
    println!(rt; "{servers} servers: {histories} histories, {calls} calls, {accepted} accepted")?;
    print!(rt; "  refused:")?;
    for (number, count) in tally.refused.iter().enumerate().skip(1) {
        print!(rt; " {number}: {count};")?;
    }
    println!(rt)?;
    show_changes(rt, tally)?;
    let reads = tally.reads;
    let without = tally.reads_without;
    let rebuilds = tally.rebuilds;
    println!(rt;
        "  {reads} reads compared, {without} with a box out; {rebuilds} rebuilds compared"
    )?;
    let counting = tally.cut_seals_counting;
    let lost = tally.cut_seals_lost;
    println!(rt; "  cut seals: {counting} counted, {lost} did not")
}

fn main(rt: HostRuntime) -> anyhow::Result<()> {
    for servers in 3..=8 {
        let mut tally = Tally::new();
        for seed in 1..=HISTORIES {
            let mixed = u64::from(servers).saturating_mul(1000).saturating_add(seed);
            if let Some(broken) = run(rt.alloc(), servers, mixed, CALLS, &mut tally)? {
                let call = broken.call;
                let promise = broken.promise.name();
                bail!("{servers} servers, history {seed}, call {call}: {promise}");
            }
        }
        show(&rt, servers, &tally)?;
    }
    Ok(())
}
