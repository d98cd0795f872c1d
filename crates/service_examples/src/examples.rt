// Worked examples of whole runs.
use crate::script::*;
use rack_model::fault::{Cause, Place};
use service_model::world::World;
use std::test::Fail;

#[test]
fn seventh_write_refused(rt: HostRuntime) -> Result<(), Fail> {
    let mut world = World::new(rt.alloc(), &[9; 3], 40)?;
    let one = ticket(1, 1);
    let steps = [
        restart(0),
        begin(one),
        wrote(one, A, 1, 1),
        wrote(one, A, 2, 2),
        wrote(one, B, 3, 3),
        wrote(one, C, 4, 4),
        wrote(one, B, 5, 5),
        trimmed(one, C, 6),
        refused(write(one, A, 7), Cause::StripeFull, Place::Client(1)),
        sealed(one, 0),
        found(A, 2, 2),
        found(B, 5, 5),
        absent(C),
    ];
    assert_eq!(rt; play(&mut world, &steps)?, None);
    Ok(())
}

// One place stays free on each server for the cleaner.
#[test]
fn last_place_for_cleaner(rt: HostRuntime) -> Result<(), Fail> {
    let mut world = World::new(rt.alloc(), &[3, 2, 3], 40)?;
    let steps = [
        restart(0),
        begin(ticket(1, 1)),
        wrote(ticket(1, 1), A, 1, 1),
        sealed(ticket(1, 1), 0),
        begin(ticket(1, 2)),
        wrote(ticket(1, 2), A, 2, 2),
        refused(seal(ticket(1, 2)), Cause::Full, Place::Server(1)),
        begin(ticket(0, 3)),
        gathered(ticket(0, 3), key(1, 0), 1),
        sealed(ticket(0, 3), 0),
        refused(seal(ticket(1, 2)), Cause::Full, Place::Server(1)),
        found(A, 2, 2),
    ];
    assert_eq!(rt; play(&mut world, &steps)?, None);
    Ok(())
}

#[test]
fn later_seal_of_older_write(rt: HostRuntime) -> Result<(), Fail> {
    let mut world = World::new(rt.alloc(), &[9; 4], 40)?;
    let steps = [
        restart(0),
        begin(ticket(1, 1)),
        begin(ticket(2, 2)),
        wrote(ticket(1, 1), A, 1, 1),
        wrote(ticket(2, 2), A, 2, 2),
        sealed(ticket(2, 2), 0),
        sealed(ticket(1, 1), 1),
        found(A, 2, 2),
        restart(2),
        found(A, 2, 2),
    ];
    assert_eq!(rt; play(&mut world, &steps)?, None);
    Ok(())
}

// A block is moved while it is rewritten: the rewrite is read, before and after a restart.
#[test]
fn rewrite_beats_moved_copy(rt: HostRuntime) -> Result<(), Fail> {
    let mut world = World::new(rt.alloc(), &[9; 3], 40)?;
    let steps = [
        restart(0),
        begin(ticket(1, 1)),
        wrote(ticket(1, 1), A, 1, 1),
        wrote(ticket(1, 1), B, 2, 2),
        sealed(ticket(1, 1), 0),
        begin(ticket(0, 2)),
        gathered(ticket(0, 2), key(1, 0), 2),
        begin(ticket(1, 3)),
        wrote(ticket(1, 3), A, 3, 3),
        found(A, 3, 3),
        sealed(ticket(1, 3), 0),
        sealed(ticket(0, 2), 1),
        found(A, 3, 3),
        found(B, 2, 2),
        restart(2),
        found(A, 3, 3),
        found(B, 2, 2),
    ];
    assert_eq!(rt; play(&mut world, &steps)?, None);
    Ok(())
}

// The stripe with the older write is still there when the trim's stripe has been cleaned.
#[test]
fn trim_survives_cleaning(rt: HostRuntime) -> Result<(), Fail> {
    let mut world = World::new(rt.alloc(), &[9; 3], 40)?;
    let steps = [
        restart(0),
        begin(ticket(1, 1)),
        wrote(ticket(1, 1), A, 1, 1),
        wrote(ticket(1, 1), B, 1, 2),
        sealed(ticket(1, 1), 0),
        begin(ticket(1, 2)),
        trimmed(ticket(1, 2), A, 3),
        sealed(ticket(1, 2), 0),
        begin(ticket(0, 3)),
        gathered(ticket(0, 3), key(1, 1), 1),
        sealed(ticket(0, 3), 0),
        absent(A),
        restart(2),
        absent(A),
        found(B, 1, 2),
    ];
    assert_eq!(rt; play(&mut world, &steps)?, None);
    Ok(())
}

// An unsealed write hides the sealed slot and may yet be withdrawn.
#[test]
fn hidden_slot_is_live(rt: HostRuntime) -> Result<(), Fail> {
    let mut world = World::new(rt.alloc(), &[9; 3], 40)?;
    let steps = [
        restart(0),
        begin(ticket(1, 1)),
        wrote(ticket(1, 1), A, 1, 1),
        sealed(ticket(1, 1), 0),
        begin(ticket(2, 2)),
        wrote(ticket(2, 2), A, 2, 2),
        found(A, 2, 2),
        begin(ticket(0, 3)),
        gathered(ticket(0, 3), key(1, 0), 1),
        sealed(ticket(0, 3), 0),
        (withdraw(ticket(2, 2)), DONE),
        found(A, 1, 1),
    ];
    assert_eq!(rt; play(&mut world, &steps)?, None);
    Ok(())
}
