// A row of four, and a seal cut after some stores.
use crate::script::*;
use service_model::call::{Answer, Call, Ticket};
use service_model::world::World;
use std::alloc::{AllocError, Global};
use std::test::Fail;

// What the restart answers after the seal of a first stripe is cut after so many stores, and what
// a block of it then reads as.
fn after_cut(heap: Global, budget: u64, last: &[Step]) -> Result<Option<usize>, AllocError> {
    let mut world = World::new(heap, &[9; 4], 40)?;
    let one = ticket(1, 1);
    let first = [
        restart(0),
        begin(one),
        wrote(one, A, 1, 1),
        (
            Call::Seal {
                ticket: one,
                budget,
            },
            Answer::Cut,
        ),
    ];
    match play(&mut world, &first)? {
        Some(number) => Ok(Some(number)),
        None => play(&mut world, last),
    }
}

#[test]
fn cut_seal_counts_or_not(rt: HostRuntime) -> Result<(), Fail> {
    let heap = rt.alloc();
    let whole = [restart(1), found(A, 1, 1)];
    assert_eq!(rt; after_cut(heap, 3, &whole)?, None, "three stores");
    let none = [restart(0), absent(A)];
    assert_eq!(rt; after_cut(heap, 2, &none)?, None, "two stores");
    assert_eq!(rt; after_cut(heap, 0, &none)?, None, "no store");
    let without = [(restart_without(0), Answer::Counting(0)), absent(A)];
    assert_eq!(rt; after_cut(heap, 3, &without)?, None, "server 0 named");
    let last = [(restart_without(3), Answer::Counting(1)), found(A, 1, 1)];
    assert_eq!(rt; after_cut(heap, 3, &last)?, None, "server 3 named");
    Ok(())
}

// Begin numbers start again after a cut, and go on over a restart.
#[test]
fn begin_numbers(rt: HostRuntime) -> Result<(), Fail> {
    let mut world = World::new(rt.alloc(), &[9; 3], 40)?;
    let without_changes = Call::Seal {
        ticket: ticket(4, 3),
        budget: 0,
    };
    let steps = [
        restart(0),
        begin(ticket(1, 1)),
        restart(0),
        begin(ticket(1, 2)),
        begin(ticket(4, 3)),
        (without_changes, Answer::Behind(0)),
        wrote(ticket(1, 2), A, 1, 1),
        (
            Call::Seal {
                ticket: ticket(1, 2),
                budget: 0,
            },
            Answer::Cut,
        ),
        restart(0),
        begin(ticket(1, 1)),
    ];
    assert_eq!(rt; play(&mut world, &steps)?, None);
    Ok(())
}

// A rebuild that is cut leaves the server out, with what it got so far.
#[test]
fn rebuild_cut(rt: HostRuntime) -> Result<(), Fail> {
    let mut world = World::new(rt.alloc(), &[9; 3], 40)?;
    let steps = [
        restart(0),
        begin(ticket(1, 1)),
        wrote(ticket(1, 1), A, 1, 1),
        sealed(ticket(1, 1), 0),
        (pull(0), DONE),
        (
            Call::Rebuild {
                server: 0,
                budget: 1,
            },
            Answer::Cut,
        ),
        (restart_without(0), Answer::Counting(1)),
        found(A, 1, 1),
        (
            Call::Rebuild {
                server: 0,
                budget: 2,
            },
            Answer::Rebuilt(1),
        ),
        (pull(1), DONE),
        found(A, 1, 1),
    ];
    assert_eq!(rt; play(&mut world, &steps)?, None);
    Ok(())
}
