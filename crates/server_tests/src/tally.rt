// How often a run met each case.
use crate::call::{Answer, Call};
use crate::model::{FULL, HELD};

#[derive(Clone, Copy, Default)]
pub(crate) struct Tally {
    stored: u32,
    held: u32,
    full: u32,
    fetched: u32,
    not_fetched: u32,
    deleted: u32,
    not_deleted: u32,
    wiped: u32,
    found: u32,
    not_found: u32,
}

impl Tally {
    pub(crate) fn note(&mut self, call: &Call, answer: &Answer) {
        let count = match (call, answer) {
            (Call::Store(..), Answer::Changed(Ok(()))) => &mut self.stored,
            (Call::Store(..), Answer::Changed(Err(HELD))) => &mut self.held,
            (Call::Store(..), Answer::Changed(Err(FULL))) => &mut self.full,
            (Call::Fetch(..), Answer::Fetched(Ok(()), _)) => &mut self.fetched,
            (Call::Fetch(..), Answer::Fetched(Err(_), _)) => &mut self.not_fetched,
            (Call::Delete(_), Answer::Changed(Ok(()))) => &mut self.deleted,
            (Call::Delete(_), Answer::Changed(Err(_))) => &mut self.not_deleted,
            (Call::Wipe, Answer::Wiped) => &mut self.wiped,
            (Call::From(_), Answer::From(Some(_))) => &mut self.found,
            (Call::From(_), Answer::From(None)) => &mut self.not_found,
            _ => return,
        };
        *count = count.saturating_add(1);
    }

    // Whether each case was met that this many places allow, and no other.
    pub(crate) fn is_whole(&self, places: usize) -> bool {
        let of_keys = [
            self.stored,
            self.held,
            self.fetched,
            self.deleted,
            self.found,
        ];
        let always = [
            self.full,
            self.not_fetched,
            self.not_deleted,
            self.wiped,
            self.not_found,
        ];
        of_keys.iter().all(|count| (*count > 0) == (places > 0))
            && always.iter().all(|count| *count > 0)
    }
}
