// Refusals that name a fragment.
use crate::script::*;
use rack_model::fault::{Cause, Flaw, Place, ServerFault};
use rack_model::key::Key;
use service_model::call::{Answer, Call, Ticket};
use service_model::world::World;
use std::alloc::{AllocError, Global};
use std::test::Fail;

const FIRST: Key = Key {
    client: 1,
    stripe: 0,
};

const CLEANER: Ticket = Ticket {
    client: 0,
    begin: 2,
};

// A warm row of four with A, B and C, and A again, in stripe (1, 0), parity on server 1, data on 2,
// 3 and 0. Only data fragments 0 and 1 have filled slots.
fn started(heap: Global) -> Result<World, AllocError> {
    let mut world = World::new(heap, &[9; 4], 9)?;
    let one = ticket(1, 1);
    let steps = [
        restart(0),
        begin(one),
        wrote(one, C, 1, 1),
        wrote(one, B, 2, 2),
        wrote(one, C, 3, 3),
        wrote(one, A, 4, 4),
        sealed(one, 0),
        begin(CLEANER),
    ];
    let _ = play(&mut world, &steps)?;
    Ok(world)
}

fn torn(call: Call, fault: ServerFault, server: u8, key: Key) -> Step {
    refused(call, Cause::Torn(fault), Place::Fragment { server, key })
}

fn bad(call: Call, flaw: Flaw, server: u8) -> Step {
    let place = Place::Fragment { server, key: FIRST };
    refused(call, Cause::BadFragment(flaw), place)
}

fn lose(world: &mut World, server: u8, key: Key) {
    if let Some(one) = world.row.servers.get_mut(usize::from(server)) {
        let _ = one.delete(key);
    }
}

// Turns a bit of a fragment.
fn spoil(world: &mut World, server: u8, place: usize) {
    if let Some(one) = world.row.servers.get_mut(usize::from(server))
        && let Some(bytes) = one.held.get_mut(&FIRST)
        && let Some(byte) = bytes.get_mut(place)
    {
        *byte ^= 128;
    }
}

// Only the servers that must be asked are: A lies on server 3, B and C on server 2.
#[test]
fn missing_fragments(rt: HostRuntime) -> Result<(), Fail> {
    let absent = ServerFault::Absent;
    let mut world = started(rt.alloc())?;
    lose(&mut world, 3, FIRST);
    let steps = [
        found(B, 2, 2),
        torn(Call::Read { block: A }, absent, 3, FIRST),
        torn(gather(CLEANER, FIRST), absent, 3, FIRST),
        (pull(2), DONE),
        torn(Call::Read { block: B }, absent, 3, FIRST),
        torn(rebuild(2), absent, 3, FIRST),
    ];
    assert_eq!(rt; play(&mut world, &steps)?, None, "one server");
    let mut world = started(rt.alloc())?;
    let steps = [gathered(CLEANER, FIRST, 3)];
    assert_eq!(rt; play(&mut world, &steps)?, None, "sources");
    lose(&mut world, 1, FIRST);
    lose(&mut world, 3, FIRST);
    assert_eq!(rt;
        play(&mut world, &[torn(seal(CLEANER), absent, 1, FIRST)])?,
        None
    );
    Ok(())
}

// A key that is to be stored is there already, before any source is looked at.
#[test]
fn key_taken(rt: HostRuntime) -> Result<(), Fail> {
    let mut world = started(rt.alloc())?;
    let taken = key(0, 0);
    if let Some(one) = world.row.servers.get_mut(2) {
        let _ = one.store(taken, &[0; 512])?;
    }
    let steps = [
        gathered(CLEANER, FIRST, 3),
        torn(seal(CLEANER), ServerFault::Held, 2, taken),
    ];
    assert_eq!(rt; play(&mut world, &steps)?, None);
    lose(&mut world, 2, FIRST);
    assert_eq!(rt;
        play(
            &mut world,
            &[torn(seal(CLEANER), ServerFault::Held, 2, taken)]
        )?,
        None
    );
    Ok(())
}

// Places in the data fragment on server 2 where a turned bit is a flaw. The other data fragment is
// sound, and with server 2 out its fragment is put together from sound ones.
#[test]
fn bad_fragments(rt: HostRuntime) -> Result<(), Fail> {
    let flaws = [
        (0, Flaw::Layout),
        (1, Flaw::RowLength),
        (31, Flaw::Head),
        (32, Flaw::Slot),
        (192, Flaw::Slot),
    ];
    for (place, flaw) in flaws {
        let mut world = started(rt.alloc())?;
        spoil(&mut world, 2, place);
        let (call, _) = restart(1);
        let steps = [
            bad(Call::Read { block: B }, flaw, 2),
            bad(gather(CLEANER, FIRST), flaw, 2),
            found(A, 4, 4),
            bad(call, flaw, 2),
            (restart_without(2), Answer::Counting(1)),
            found(B, 2, 2),
            (rebuild(2), Answer::Rebuilt(1)),
            restart(1),
        ];
        assert_eq!(rt; play(&mut world, &steps)?, None, "at {place}");
    }
    Ok(())
}

// A slot that reads well is bad all the same where it does not hold what its entry says.
#[test]
fn slot_unlike_its_entry(rt: HostRuntime) -> Result<(), Fail> {
    let mut world = started(rt.alloc())?;
    spoil(&mut world, 2, 200);
    let steps = [
        bad(Call::Read { block: B }, Flaw::Slot, 2),
        bad(gather(CLEANER, FIRST), Flaw::Slot, 2),
        found(C, 3, 3),
        (pull(1), DONE),
        bad(Call::Read { block: B }, Flaw::Slot, 2),
        restart_named(1, 1),
        found(B, 2, 130),
    ];
    assert_eq!(rt; play(&mut world, &steps)?, None, "a turned version");
    let mut world = started(rt.alloc())?;
    spoil(&mut world, 3, 0);
    let steps = [
        (pull(2), DONE),
        bad(Call::Read { block: B }, Flaw::Layout, 2),
    ];
    assert_eq!(rt;
        play(&mut world, &steps)?,
        None,
        "put together from a bad one"
    );
    Ok(())
}
