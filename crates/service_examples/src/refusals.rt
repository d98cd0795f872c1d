// Each refusal of the service, its number and the place that it names.
use crate::script::*;
use rack_model::fault::{Cause, Fault, Flaw, Layer, Place, ServerFault};
use rack_model::key::Key;
use service_model::call::{Answer, Call, Ticket};
use service_model::world::{AFTER_LAST, World};
use std::alloc::{AllocError, Global};
use std::test::Fail;

// A warm row of three with block A sealed in stripe (1, 0), and tickets (1, 2) and (0, 3) held.
fn started(heap: Global) -> Result<World, AllocError> {
    let mut world = World::new(heap, &[9; 3], 3)?;
    let steps = [
        restart(0),
        begin(ticket(1, 1)),
        wrote(ticket(1, 1), A, 1, 1),
        sealed(ticket(1, 1), 0),
        begin(ticket(1, 2)),
        begin(ticket(0, 3)),
    ];
    let _ = play(&mut world, &steps)?;
    Ok(world)
}

const ONE: Ticket = Ticket {
    client: 1,
    begin: 2,
};

const CLEANER: Ticket = Ticket {
    client: 0,
    begin: 3,
};

#[test]
fn cold(rt: HostRuntime) -> Result<(), Fail> {
    let mut world = World::new(rt.alloc(), &[9; 3], 3)?;
    let calls = [
        Call::Begin { client: 9 },
        Call::Park { ticket: ONE },
        Call::PickUp { client: 9 },
        write(ONE, A, 1),
        Call::Trim {
            ticket: ONE,
            block: A,
        },
        gather(ONE, key(1, 0)),
        seal(ONE),
        withdraw(ONE),
        Call::Read { block: A },
        pull(9),
        rebuild(9),
    ];
    for call in calls.iter() {
        let steps = [refused(*call, Cause::Cold, Place::Nowhere)];
        assert_eq!(rt; play(&mut world, &steps)?, None);
    }
    Ok(())
}

#[test]
fn bad_server(rt: HostRuntime) -> Result<(), Fail> {
    let mut world = started(rt.alloc())?;
    let steps = [
        refused(pull(3), Cause::BadServer, Place::Nowhere),
        refused(rebuild(3), Cause::BadServer, Place::Nowhere),
        refused(restart_without(3), Cause::BadServer, Place::Nowhere),
        refused(Call::Read { block: A }, Cause::Cold, Place::Nowhere),
    ];
    assert_eq!(rt; play(&mut world, &steps)?, None);
    let (call, _) = restart(0);
    let steps = [refused(call, Cause::BadServer, Place::Nowhere)];
    let mut short = World::new(rt.alloc(), &[9; 2], 3)?;
    assert_eq!(rt; play(&mut short, &steps)?, None, "a row of two");
    let mut long = World::new(rt.alloc(), &[9; 9], 3)?;
    assert_eq!(rt; play(&mut long, &steps)?, None, "a row of nine");
    Ok(())
}

#[test]
fn clients_and_tickets(rt: HostRuntime) -> Result<(), Fail> {
    let mut world = started(rt.alloc())?;
    let bad = |call: Call, client: u8| refused(call, Cause::BadClient, Place::Client(client));
    let stale = |call: Call, client: u8| refused(call, Cause::Stale, Place::Client(client));
    let old = ticket(1, 1);
    let steps = [
        bad(Call::Begin { client: 8 }, 8),
        bad(Call::PickUp { client: 255 }, 255),
        bad(write(CLEANER, A, 1), 0),
        bad(
            Call::Trim {
                ticket: CLEANER,
                block: A,
            },
            0,
        ),
        bad(gather(ONE, key(1, 0)), 1),
        refused(Call::Begin { client: 1 }, Cause::Busy, Place::Client(1)),
        stale(write(old, A, 1), 1),
        stale(
            Call::Trim {
                ticket: old,
                block: A,
            },
            1,
        ),
        stale(Call::Park { ticket: old }, 1),
        stale(seal(old), 1),
        stale(withdraw(old), 1),
        stale(gather(ticket(0, 1), key(1, 0)), 0),
        stale(Call::PickUp { client: 1 }, 1),
        (Call::Park { ticket: ONE }, DONE),
        refused(Call::Begin { client: 1 }, Cause::Busy, Place::Client(1)),
        stale(seal(ONE), 1),
        (Call::PickUp { client: 1 }, Answer::Ticket(ONE)),
        stale(Call::PickUp { client: 1 }, 1),
    ];
    assert_eq!(rt; play(&mut world, &steps)?, None);
    Ok(())
}

#[test]
fn out_and_absent(rt: HostRuntime) -> Result<(), Fail> {
    let mut world = started(rt.alloc())?;
    let first = key(1, 0);
    let other = key(1, 1);
    let no_source = |key: Key| refused(gather(CLEANER, key), Cause::Absent, Place::Stripe(key));
    let steps = [
        refused(rebuild(1), Cause::Out, Place::Nowhere),
        (pull(0), DONE),
        refused(pull(1), Cause::Out, Place::Server(0)),
        refused(rebuild(1), Cause::Out, Place::Server(0)),
        absent(B),
        trimmed(ONE, A, 2),
        absent(A),
        no_source(other),
        gathered(CLEANER, first, 1),
        no_source(first),
    ];
    assert_eq!(rt; play(&mut world, &steps)?, None);
    Ok(())
}

#[test]
fn stripe_full(rt: HostRuntime) -> Result<(), Fail> {
    let mut world = started(rt.alloc())?;
    let full = |call: Call, client: u8| refused(call, Cause::StripeFull, Place::Client(client));
    let mut steps = [wrote(ONE, A, 1, 2); 6];
    for (number, step) in steps.iter_mut().enumerate() {
        let version = u32::try_from(number).unwrap_or(0).saturating_add(2);
        *step = wrote(ONE, A, 1, version);
    }
    assert_eq!(rt; play(&mut world, &steps)?, None);
    let steps = [full(
        Call::Trim {
            ticket: ONE,
            block: A,
        },
        1,
    )];
    assert_eq!(rt; play(&mut world, &steps)?, None);
    Ok(())
}

// Eight empty stripes are sources, and a ninth is refused.
#[test]
fn sources_full(rt: HostRuntime) -> Result<(), Fail> {
    let mut world = World::new(rt.alloc(), &[12; 3], 3)?;
    let _ = play(&mut world, &[restart(0)])?;
    for number in 1..=9 {
        let one = ticket(1, number);
        let version = number;
        let steps = [begin(one), wrote(one, A, 1, version), sealed(one, 0)];
        assert_eq!(rt; play(&mut world, &steps)?, None, "stripe {number}");
    }
    let cleaner = ticket(0, 10);
    assert_eq!(rt; play(&mut world, &[begin(cleaner)])?, None);
    for number in 0..8 {
        let steps = [gathered(cleaner, key(1, number), 0)];
        assert_eq!(rt; play(&mut world, &steps)?, None, "source {number}");
    }
    let ninth = gather(cleaner, key(1, 8));
    let steps = [
        refused(ninth, Cause::StripeFull, Place::Client(0)),
        sealed(cleaner, 0),
        found(A, 1, 9),
        restart(1),
        found(A, 1, 9),
    ];
    assert_eq!(rt; play(&mut world, &steps)?, None);
    Ok(())
}

#[test]
fn places_full(rt: HostRuntime) -> Result<(), Fail> {
    let mut world = started(rt.alloc())?;
    for (server, capacity) in world.row.servers.iter_mut().zip([3, 2, 1]) {
        server.capacity = capacity;
    }
    let full = |call: Call, server: u8| refused(call, Cause::Full, Place::Server(server));
    let steps = [
        gathered(CLEANER, key(1, 0), 1),
        wrote(ONE, B, 2, 2),
        full(seal(ONE), 1),
        full(seal(CLEANER), 2),
        (pull(2), DONE),
        full(seal(ONE), 1),
        sealed(CLEANER, 0),
        refused(pull(2), Cause::Out, Place::Server(2)),
    ];
    assert_eq!(rt; play(&mut world, &steps)?, None);
    if let Some(server) = world.row.servers.get_mut(2) {
        server.capacity = 0;
    }
    let steps = [full(rebuild(2), 2)];
    assert_eq!(rt; play(&mut world, &steps)?, None, "rebuild");
    if let Some(server) = world.row.servers.get_mut(2) {
        server.wipe();
    }
    let (call, _) = restart(1);
    let steps = [
        full(call, 2),
        refused(seal(ONE), Cause::Cold, Place::Nowhere),
    ];
    assert_eq!(rt; play(&mut world, &steps)?, None, "restart");
    Ok(())
}

#[test]
fn table_full(rt: HostRuntime) -> Result<(), Fail> {
    let mut world = started(rt.alloc())?;
    world.table.room = 2;
    let full = |call: Call| refused(call, Cause::TableFull, Place::Nowhere);
    let steps = [
        wrote(ONE, B, 1, 2),
        wrote(ONE, B, 2, 3),
        wrote(ONE, A, 3, 4),
        wrote(ONE, C, 4, 5),
        full(seal(ONE)),
    ];
    assert_eq!(rt; play(&mut world, &steps)?, None);
    world.table.room = 3;
    assert_eq!(rt;
        play(&mut world, &[sealed(ONE, 0)])?,
        None,
        "room for three"
    );
    world.table.room = 2;
    let (call, _) = restart(2);
    let steps = [full(call), refused(seal(ONE), Cause::Cold, Place::Nowhere)];
    assert_eq!(rt; play(&mut world, &steps)?, None, "restart");
    assert!(rt; world.table.entries.is_empty(), "the table is empty");
    Ok(())
}

#[test]
fn numbers_spent(rt: HostRuntime) -> Result<(), Fail> {
    let mut world = started(rt.alloc())?;
    let spent = |call: Call, client: u8| refused(call, Cause::Spent, Place::Client(client));
    world.service.next_begin = AFTER_LAST - 1;
    let steps = [
        begin(ticket(5, 4294967295)),
        spent(Call::Begin { client: 4 }, 4),
    ];
    assert_eq!(rt; play(&mut world, &steps)?, None, "begin numbers");
    world.service.next_version = AFTER_LAST - 1;
    let steps = [
        wrote(ONE, B, 1, 4294967295),
        spent(
            Call::Trim {
                ticket: ONE,
                block: A,
            },
            1,
        ),
    ];
    assert_eq!(rt; play(&mut world, &steps)?, None, "versions");
    world.service.set_next_stripe(1, AFTER_LAST);
    assert_eq!(rt; play(&mut world, &[spent(seal(ONE), 1)])?, None, "stripes");
    world.service.set_next_stripe(1, AFTER_LAST - 1);
    world.service.next_begin = 10;
    let steps = [
        sealed(ONE, 0),
        restart(2),
        begin(ticket(1, 10)),
        spent(write(ticket(1, 10), C, 1), 1),
        found(B, 1, 4294967295),
    ];
    assert_eq!(rt; play(&mut world, &steps)?, None, "the last ones are taken");
    world.service.next_version = 7;
    let steps = [wrote(ticket(1, 10), C, 1, 7), spent(seal(ticket(1, 10)), 1)];
    assert_eq!(rt; play(&mut world, &steps)?, None, "no stripe after the last");
    Ok(())
}

#[test]
fn moves_spent(rt: HostRuntime) -> Result<(), Fail> {
    let mut world = started(rt.alloc())?;
    if let Some(entry) = world.table.entries.get_mut(&A) {
        entry.pair.moves = 65535;
    }
    let call = gather(CLEANER, key(1, 0));
    let steps = [refused(call, Cause::Spent, Place::Client(0))];
    assert_eq!(rt; play(&mut world, &steps)?, None);
    Ok(())
}

#[test]
fn numbers_and_layers(rt: HostRuntime) {
    let all = [
        Cause::Cold,
        Cause::BadServer,
        Cause::BadClient,
        Cause::Busy,
        Cause::Stale,
        Cause::Out,
        Cause::Absent,
        Cause::StripeFull,
        Cause::Full,
        Cause::TableFull,
        Cause::Spent,
        Cause::Torn(ServerFault::Absent),
        Cause::BadFragment(Flaw::Head),
    ];
    for (before, cause) in all.iter().enumerate() {
        let number = usize::from(cause.number());
        assert_eq!(rt; number, before.saturating_add(1));
        let place = Place::Nowhere;
        let layer = Fault {
            cause: *cause,
            place,
        }
        .layer();
        let wanted = match number {
            12 => Layer::Server,
            13 => Layer::Fragment,
            _ => Layer::Service,
        };
        assert!(rt; layer == wanted, "the layer of {number}");
    }
}
