// One history: a rack, the plain rack beside it, and what happens next.
use crate::dice::Dice;
use crate::event::Event;
use crate::hands::Hands;
use crate::ledger::{Ledger, seal_ahead};
use crate::plain::PlainRack;
use crate::plan::Plan;
use crate::promises::Promise;
use crate::tally::{Tally, raise};
use rack_model::codec::Bytes;
use rack_model::key::Key;
use service_model::call::{Answer, Call};
use service_model::step::step;
use service_model::world::World;
use std::alloc::{AllocError, Global};

#[derive(Drop)]
pub struct History {
    pub plan: Plan,
    pub dice: Dice,
    pub world: World,
    pub plain: PlainRack,
    pub ledger: Ledger,
    pub hands: Hands,
    // The server that is out by what happened to the rack, whatever the service knows.
    pub out: Option<u8>,
}

// A promise that a call broke.
#[derive(Clone, Copy)]
pub struct Broken {
    pub call: u64,
    pub promise: Promise,
}

// What a call answered, and the first promise that it broke.
#[derive(Clone, Copy)]
pub struct Outcome {
    pub answer: Answer,
    pub broken: Option<Promise>,
}

impl History {
    // Empty servers under a new service. The same numbers give the same history.
    pub fn new(heap: Global, servers: u8, seed: u64) -> Result<History, AllocError> {
        let mut dice = Dice::new(seed);
        let plan = Plan::draw(heap, &mut dice, servers)?;
        let world = World::new(heap, &plan.capacities, plan.room)?;
        Ok(History {
            plan,
            dice,
            world,
            plain: PlainRack::new(heap),
            ledger: Ledger::new(heap),
            hands: Hands::new(heap)?,
            out: None,
        })
    }

    // The server holds this from now on, as far as it takes it.
    pub fn garble(&mut self, server: u8, held: &[(Key, Bytes)]) -> Result<(), AllocError> {
        if let Some(one) = self.world.row.servers.get_mut(usize::from(server)) {
            one.wipe();
            for (key, bytes) in held {
                let _ = one.store(*key, bytes)?;
            }
        }
        Ok(())
    }

    // A server pulled or named stays out until a rebuild of it has answered its count.
    fn note_out(&mut self, call: &Call, answer: &Answer) {
        match (*call, *answer) {
            (Call::Pull { server }, Answer::Done) => self.out = Some(server),
            (Call::Rebuild { .. }, Answer::Rebuilt(_)) => self.out = None,
            (
                Call::Restart {
                    out: Some(server),
                    ..
                },
                _,
            ) if server < self.world.servers() => {
                self.out = Some(server);
            }
            _ => {}
        }
    }

    // Makes the call, and holds what comes of it against the promises.
    pub fn make(&mut self, call: &Call, tally: &mut Tally) -> Result<Outcome, AllocError> {
        let ahead = seal_ahead(&self.world, call)?;
        let counting = match *call {
            Call::Restart { out, .. } => Some(self.ledger.counting(&self.world, out)?),
            _ => None,
        };
        let next_version = self.plain.next_version;
        let answer = step(&mut self.world, call)?;
        tally.note(call, &answer);
        if let Some(sealing) = ahead {
            self.ledger.note_seal(sealing, &answer)?;
        }
        let mut counts = false;
        if let Some(found) = counting
            && matches!(answer, Answer::Counting(_))
        {
            self.ledger.note_restart(&found)?;
            tally.note_cut_seal(found.cut_seal);
            counts = found.cut_seal == Some(true);
        }
        self.plain.note(call, &answer, counts)?;
        self.note_out(call, &answer);
        self.hands.note(call, &answer)?;
        let broken = self.judge(call, &answer, next_version, tally)?;
        Ok(Outcome { answer, broken })
    }

    // What happens next, made and judged.
    pub fn go_on(&mut self, tally: &mut Tally) -> Result<Option<Promise>, AllocError> {
        match self.next_event()? {
            Event::Call(call) => Ok(self.make(&call, tally)?.broken),
            Event::Garble { server, held } => {
                raise(&mut tally.garbled);
                self.garble(server, &held)?;
                self.judge_reads(tally)
            }
        }
    }
}

// Runs a history of so many calls, and answers the first promise broken.
pub fn run(
    heap: Global,
    servers: u8,
    seed: u64,
    calls: u64,
    tally: &mut Tally,
) -> Result<Option<Broken>, AllocError> {
    let mut history = History::new(heap, servers, seed)?;
    raise(&mut tally.histories);
    for call in 0..calls {
        if let Some(promise) = history.go_on(tally)? {
            return Ok(Some(Broken { call, promise }));
        }
    }
    Ok(None)
}
