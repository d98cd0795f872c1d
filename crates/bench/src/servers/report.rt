// What was done to a server, and how long it took.
use crate::servers::digest::Digest;
use crate::servers::load::Load;
use std::time::Duration;

// The time of all calls of one sort.
#[derive(Clone, Copy)]
pub(crate) struct Spent {
    pub fetches_of_one: Duration,
    pub fetches: Duration,
    pub deletes: Duration,
    pub stores: Duration,
}

impl Spent {
    pub(crate) fn new() -> Spent {
        Spent {
            fetches_of_one: Duration::ZERO,
            fetches: Duration::ZERO,
            deletes: Duration::ZERO,
            stores: Duration::ZERO,
        }
    }
}

#[derive(Clone, Copy)]
pub(crate) struct Report {
    pub load: Load,
    // Calls of each sort.
    pub calls: u64,
    pub spent: Spent,
    pub digest: Digest,
    pub free: u32,
}

impl Report {
    // Nanoseconds a call.
    fn each(&self, spent: Duration) -> u128 {
        spent
            .as_nanos()
            .checked_div(u128::from(self.calls))
            .unwrap_or(0)
    }

    pub(crate) fn show(&self, rt: &HostRuntime, kind: &str, times: bool) -> anyhow::Result<()> {
        let fragments = self.load.fragments;
        let calls = self.calls;
        let free = self.free;
        let hash = self.digest.hash;
        println!(rt;
            "{kind} of {fragments}: {calls} calls of each sort, {free} free after, digest {hash:016x}"
        )?;
        if times {
            let one = self.each(self.spent.fetches_of_one);
            let fetch = self.each(self.spent.fetches);
            let delete = self.each(self.spent.deletes);
            let store = self.each(self.spent.stores);
            println!(rt;
                "    ns a call: fetch of one key {one}, fetch {fetch}, delete {delete}, store {store}"
            )?;
        }
        Ok(())
    }
}
