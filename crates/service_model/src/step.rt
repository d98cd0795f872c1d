// One call on a rack.
use crate::call::{Answer, Call};
use crate::stop::Stop;
use crate::world::World;
use std::alloc::AllocError;

fn answer_of(world: &mut World, call: &Call) -> Result<Answer, Stop> {
    match *call {
        Call::Begin { client } => world.begin(client),
        Call::Park { ticket } => world.park(ticket),
        Call::PickUp { client } => world.pick_up(client),
        Call::Write {
            ticket,
            block,
            content,
        } => world.write(ticket, block, content),
        Call::Trim { ticket, block } => world.trim(ticket, block),
        Call::Gather { ticket, key } => world.gather(ticket, key),
        Call::Seal { ticket, budget } => world.seal(ticket, budget),
        Call::Withdraw { ticket } => world.withdraw(ticket),
        Call::Read { block } => world.read(block),
        Call::Pull { server } => world.pull(server),
        Call::Rebuild { server, budget } => world.rebuild(server, budget),
        Call::Restart { out, budget } => world.restart(out, budget),
    }
}

// Makes the call, and says what it answers. An error is only for want of memory, and leaves a world
// of no further use.
pub fn step(world: &mut World, call: &Call) -> Result<Answer, AllocError> {
    match answer_of(world, call) {
        Ok(answer) => Ok(answer),
        Err(Stop::Refused(fault)) => Ok(Answer::Refused(fault)),
        Err(Stop::Cut) => Ok(Answer::Cut),
        Err(Stop::NoMemory) => Err(AllocError),
    }
}
