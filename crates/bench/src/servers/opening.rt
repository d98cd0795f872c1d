// How long a log takes to open. It looks at the lead of every record; where the keys do not rise from
// record to record, it also walks over the earlier ones.
use log_server::log::LogServer;
use std::time::{Duration, Instant};

#[derive(Clone, Copy)]
pub(crate) struct Openings {
    // The keys rise from record to record.
    pub rising: Duration,
    // Those that were deleted and stored again stand at the end.
    pub after: Duration,
}

pub(crate) fn opening(rt: &HostRuntime, area: &mut [u8]) -> anyhow::Result<Duration> {
    let start = Instant::now(rt)?;
    let _log = LogServer::open(area);
    Ok(start.elapsed(rt)?)
}

impl Openings {
    pub(crate) fn show(&self, rt: &HostRuntime) -> anyhow::Result<()> {
        let rising = self.rising.as_micros();
        let after = self.after.as_micros();
        println!(rt; "    us to open: keys rising {rising}, after the calls {after}")?;
        Ok(())
    }
}
