// The promises over histories, looked at after each call.
use crate::event::ENOUGH;
use crate::history::History;
use crate::tally::{Tally, raise};
use rack_model::fault::{Cause, Place};
use rack_model::key::BlockId;
use service_model::call::{Answer, Call};
use service_model::step::step;
use std::alloc::AllocError;

#[derive(Clone, Copy, PartialEq, Eq)]
pub enum Promise {
    // A write takes the plain rack's next version.
    Version,
    // Begin numbers go up by one, and from 1 again after a cut.
    Begin,
    // A read answers the newest write kept, or Absent.
    Read,
    // A server just rebuilt holds the fragments placed on it and no other.
    Rebuilt,
    // Servers in use hold the fragments placed on them and no other.
    InUse,
    // A restart answers how many stripes count.
    Counting,
    // A restart on the terms is accepted, unless it is cut.
    Restart,
    // No fragment is missing or bad.
    Sound,
}

impl Promise {
    pub fn name(self) -> &'static str {
        match self {
            Promise::Version => "not the next version",
            Promise::Begin => "not the next begin number",
            Promise::Read => "not the newest write kept",
            Promise::Rebuilt => "a rebuilt server holds something else",
            Promise::InUse => "a server in use holds something else",
            Promise::Counting => "not as many stripes count",
            Promise::Restart => "a restart on the terms is refused",
            Promise::Sound => "a fragment is missing or bad",
        }
    }
}

// A promise is broken unless this holds.
fn unless(holds: bool, promise: Promise) -> Option<Promise> {
    if holds { None } else { Some(promise) }
}

fn is_sound(answer: &Answer) -> bool {
    match answer {
        Answer::Refused(fault) => fault.cause.number() < 12,
        _ => true,
    }
}

impl History {
    fn read_agrees(&self, block: BlockId, answer: &Answer) -> bool {
        match (self.plain.newest(block), *answer) {
            (Some(record), Answer::Found { version, content }) => {
                version == record.version && content == record.content
            }
            (None, Answer::Refused(fault)) => {
                fault.cause == Cause::Absent && fault.place == Place::Nowhere
            }
            _ => false,
        }
    }

    // On a warm rack each block in play reads as the plain rack says.
    pub(crate) fn judge_reads(&mut self, tally: &mut Tally) -> Result<Option<Promise>, AllocError> {
        if !self.world.service.is_warm {
            return Ok(None);
        }
        let mut broken = None;
        for number in 0..self.plan.blocks.len() {
            let Some(block) = self.plan.blocks.get(number).copied() else {
                continue;
            };
            let answer = step(&mut self.world, &Call::Read { block })?;
            raise(&mut tally.reads);
            if self.out.is_some() {
                raise(&mut tally.reads_without);
            }
            broken = broken.or(unless(self.read_agrees(block, &answer), Promise::Read));
        }
        Ok(broken)
    }

    fn judge_restart(&self, out: Option<u8>, budget: u64, answer: &Answer) -> Option<Promise> {
        match *answer {
            Answer::Counting(count) => {
                let stripes = self.ledger.stripes.len() as u64;
                unless(count == stripes, Promise::Counting)
            }
            Answer::Cut => unless(budget < ENOUGH, Promise::Restart),
            _ => {
                let is_bad = out.is_some_and(|server| server >= self.world.servers());
                unless(is_bad, Promise::Restart)
            }
        }
    }

    fn judge_rebuilt(&self, server: u8, answer: &Answer) -> Option<Promise> {
        let Answer::Rebuilt(count) = *answer else {
            return None;
        };
        let stripes = self.ledger.stripes.len() as u64;
        let agrees = self.ledger.agrees_on(&self.world, server);
        unless(agrees && count == stripes, Promise::Rebuilt)
    }

    // A read on a cold rack is refused, and that is no promise.
    fn judge_read(&self, block: BlockId, answer: &Answer) -> Option<Promise> {
        let agrees = !self.world.service.is_warm || self.read_agrees(block, answer);
        unless(agrees, Promise::Read)
    }

    fn judge_version(&self, answer: &Answer, next_version: u64) -> Option<Promise> {
        match *answer {
            Answer::Version(version) => {
                unless(u64::from(version) == next_version, Promise::Version)
            }
            _ => None,
        }
    }

    fn judge_begin(&self, answer: &Answer) -> Option<Promise> {
        match *answer {
            Answer::Ticket(ticket) => {
                unless(u64::from(ticket.begin) == self.hands.begun, Promise::Begin)
            }
            _ => None,
        }
    }

    fn judge_answer(&self, call: &Call, answer: &Answer, next_version: u64) -> Option<Promise> {
        match *call {
            Call::Begin { .. } => self.judge_begin(answer),
            Call::Rebuild { server, .. } => self.judge_rebuilt(server, answer),
            Call::Restart { out, budget } => self.judge_restart(out, budget, answer),
            Call::Read { block } => self.judge_read(block, answer),
            _ => self.judge_version(answer, next_version),
        }
    }

    // Looks at servers in use only after calls that change them.
    fn judge_servers(&self, answer: &Answer) -> Result<Option<Promise>, AllocError> {
        match answer {
            Answer::Behind(_) | Answer::Rebuilt(_) | Answer::Counting(_) => {
                let agrees = self.ledger.agrees(&self.world)?;
                Ok(unless(agrees, Promise::InUse))
            }
            _ => Ok(None),
        }
    }

    pub(crate) fn judge(
        &mut self,
        call: &Call,
        answer: &Answer,
        next_version: u64,
        tally: &mut Tally,
    ) -> Result<Option<Promise>, AllocError> {
        if let Answer::Rebuilt(_) = answer {
            raise(&mut tally.rebuilds);
        }
        let sound = unless(is_sound(answer), Promise::Sound);
        let broken = sound
            .or(self.judge_answer(call, answer, next_version))
            .or(self.judge_servers(answer)?);
        Ok(broken.or(self.judge_reads(tally)?))
    }
}
