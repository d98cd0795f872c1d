// Calls with the answers that they must get.
use rack_model::fault::{Cause, Fault, Place};
use rack_model::key::{BlockId, Key};
use service_model::call::{Answer, Call, Ticket};
use service_model::step::step;
use service_model::world::World;
use std::alloc::AllocError;

pub(crate) const ENOUGH: u64 = 1000000;

pub(crate) const A: BlockId = BlockId { file: 1, block: 1 };

pub(crate) const B: BlockId = BlockId { file: 1, block: 2 };

pub(crate) const C: BlockId = BlockId { file: 2, block: 1 };

pub(crate) type Step = (Call, Answer);

pub(crate) fn key(client: u8, stripe: u32) -> Key {
    Key { client, stripe }
}

pub(crate) fn ticket(client: u8, begin: u32) -> Ticket {
    Ticket { client, begin }
}

pub(crate) fn restart(stripes: u64) -> Step {
    let out = None;
    let budget = ENOUGH;
    (Call::Restart { out, budget }, Answer::Counting(stripes))
}

pub(crate) fn begin(ticket: Ticket) -> Step {
    let client = ticket.client;
    (Call::Begin { client }, Answer::Ticket(ticket))
}

// The content is this byte all over.
pub(crate) fn write(ticket: Ticket, block: BlockId, byte: u8) -> Call {
    let content = [byte; 128];
    Call::Write {
        ticket,
        block,
        content,
    }
}

pub(crate) fn wrote(ticket: Ticket, block: BlockId, byte: u8, version: u32) -> Step {
    (write(ticket, block, byte), Answer::Version(version))
}

pub(crate) fn trimmed(ticket: Ticket, block: BlockId, version: u32) -> Step {
    (Call::Trim { ticket, block }, Answer::Version(version))
}

pub(crate) fn gathered(ticket: Ticket, key: Key, copies: u64) -> Step {
    (Call::Gather { ticket, key }, Answer::Copies(copies))
}

pub(crate) fn seal(ticket: Ticket) -> Call {
    let budget = ENOUGH;
    Call::Seal { ticket, budget }
}

pub(crate) fn sealed(ticket: Ticket, behind: u64) -> Step {
    (seal(ticket), Answer::Behind(behind))
}

pub(crate) fn found(block: BlockId, byte: u8, version: u32) -> Step {
    let content = [byte; 128];
    (Call::Read { block }, Answer::Found { version, content })
}

pub(crate) fn absent(block: BlockId) -> Step {
    refused(Call::Read { block }, Cause::Absent, Place::Nowhere)
}

pub(crate) fn refused(call: Call, cause: Cause, place: Place) -> Step {
    (call, Answer::Refused(Fault { cause, place }))
}

// Makes the calls in order. The number of the first that is answered otherwise, counted from 0.
pub(crate) fn play(world: &mut World, steps: &[Step]) -> Result<Option<usize>, AllocError> {
    for (number, (call, wanted)) in steps.iter().enumerate() {
        let answer = step(world, call)?;
        if answer != *wanted {
            return Ok(Some(number));
        }
    }
    Ok(None)
}

pub(crate) const DONE: Answer = Answer::Done;

pub(crate) fn withdraw(ticket: Ticket) -> Call {
    Call::Withdraw { ticket }
}

pub(crate) fn pull(server: u8) -> Call {
    Call::Pull { server }
}

pub(crate) fn rebuild(server: u8) -> Call {
    let budget = ENOUGH;
    Call::Rebuild { server, budget }
}

pub(crate) fn gather(ticket: Ticket, key: Key) -> Call {
    Call::Gather { ticket, key }
}

pub(crate) fn restart_without(server: u8) -> Call {
    let out = Some(server);
    let budget = ENOUGH;
    Call::Restart { out, budget }
}

// A restart that names this server, and counts so many stripes.
pub(crate) fn restart_named(server: u8, stripes: u64) -> Step {
    (restart_without(server), Answer::Counting(stripes))
}
