// Calls with no pattern, made on a server and on the model.
use crate::call::{Asked, Call};
use crate::compare::{FIRST, maps_agree, same_answer};
use crate::model::Name;
use crate::model::map::Map;
use crate::noise::Noise;
use crate::tally::Tally;

#[derive(Clone, Copy, PartialEq, Debug)]
pub(crate) enum Wrong {
    // The answer to this call, counted from 1.
    Call(u32),
    // The map after so many calls.
    After(u32),
    // Some case was not met, or one that cannot be was.
    Cases,
    // The bytes of an area.
    Bytes,
    // The map of an area opened again.
    Reopened,
}

#[derive(Clone, Copy)]
pub(crate) struct Run {
    pub map: Map,
    noise: Noise,
    // The name that was picked last.
    name: Name,
    tally: Tally,
    made: u32,
}

// Few names are used, so that calls meet the same keys: the first and the last of all among them.
const CLIENTS: [u8; 3] = [0, 1, 7];

const STRIPES: [u32; 4] = [0, 1, 256, 4294967295];

impl Run {
    pub(crate) fn new(map: Map, seed: u64) -> Run {
        Run {
            map,
            noise: Noise::new(seed),
            name: FIRST,
            tally: Tally::default(),
            made: 0,
        }
    }

    // Now and then the same name again: a key is deleted, stored and fetched in turn.
    fn pick_name(&mut self) -> Name {
        let number = (self.noise.next() >> 32) as usize;
        if number % 3 > 0 {
            self.name = Name {
                client: CLIENTS[number / 3 % 3],
                stripe: STRIPES[number / 9 % 4],
            };
        }
        self.name
    }

    fn pick_call(&mut self) -> Call {
        let name = self.pick_name();
        match (self.noise.next() >> 32) % 64 {
            0 => Call::Wipe,
            1..=22 => Call::Store(name, self.noise.bytes()),
            23..=36 => Call::Fetch(name, self.noise.bytes()),
            37..=43 => Call::Delete(name),
            44..=49 => Call::Holds(name),
            50..=57 => Call::From(name),
            58..=60 => Call::Capacity,
            _ => Call::Free,
        }
    }

    // Makes one call on both.
    pub(crate) fn make<A: Asked>(&mut self, asked: &mut A, call: &Call) -> Result<(), Wrong> {
        self.made = self.made.saturating_add(1);
        let answer = same_answer(asked, &mut self.map, call).ok_or(Wrong::Call(self.made))?;
        self.tally.note(call, &answer);
        Ok(())
    }

    // Compares the whole maps.
    pub(crate) fn compare<A: Asked>(&mut self, asked: &mut A) -> Result<(), Wrong> {
        if maps_agree(asked, &mut self.map) {
            Ok(())
        } else {
            Err(Wrong::After(self.made))
        }
    }

    // Makes so many calls, and compares the whole maps every 25 calls and at the end.
    pub(crate) fn go<A: Asked>(&mut self, asked: &mut A, calls: u32) -> Result<(), Wrong> {
        for left in (0..calls).rev() {
            let call = self.pick_call();
            self.make(asked, &call)?;
            if left % 25 == 0 {
                self.compare(asked)?;
            }
        }
        Ok(())
    }

    pub(crate) fn met_all_cases(&self) -> Result<(), Wrong> {
        if self.tally.is_whole(self.map.places) {
            Ok(())
        } else {
            Err(Wrong::Cases)
        }
    }
}
