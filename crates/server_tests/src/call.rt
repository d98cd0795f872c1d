// The eight calls as values, and all that a caller sees of each.
use crate::model::map::Map;
use crate::model::{Bytes, Done, Name};

#[derive(Clone, Copy)]
pub(crate) enum Call {
    Store(Name, Bytes),
    // With what the buffer has before the call.
    Fetch(Name, Bytes),
    Delete(Name),
    Wipe,
    Holds(Name),
    From(Name),
    Capacity,
    Free,
}

#[derive(Clone, Copy, PartialEq)]
pub(crate) enum Answer {
    Changed(Done),
    // With what the buffer has after the call.
    Fetched(Done, Bytes),
    Wiped,
    Holds(bool),
    From(Option<Name>),
    Count(u64),
}

// Whatever calls are made on.
pub(crate) trait Asked {
    // None where the code has no key of this name.
    fn ask(&mut self, call: &Call) -> Option<Answer>;
}

impl Asked for Map {
    fn ask(&mut self, call: &Call) -> Option<Answer> {
        Some(match call {
            Call::Store(name, bytes) => Answer::Changed(self.store(*name, bytes)),
            Call::Fetch(name, before) => {
                let mut buffer = *before;
                let answer = self.fetch(*name, &mut buffer);
                Answer::Fetched(answer, buffer)
            }
            Call::Delete(name) => Answer::Changed(self.delete(*name)),
            Call::Wipe => {
                self.wipe();
                Answer::Wiped
            }
            Call::Holds(name) => Answer::Holds(self.holds(*name)),
            Call::From(name) => Answer::From(self.from(*name)),
            Call::Capacity => Answer::Count(self.places as u64),
            Call::Free => Answer::Count(self.places.saturating_sub(self.count()) as u64),
        })
    }
}
