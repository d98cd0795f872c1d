// A fragment server on bytes that are handed in: a log of records, the held ones first.
#![tactic(auto)]

mod apart;
mod edit;
pub mod log;
mod record;
mod walk;
