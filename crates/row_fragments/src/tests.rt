// The generic calls once on a row of three shelves, with one server out.
use crate::fetch::{first_lacking_for, get_fragment};
use crate::holders::{counts, first_lacking, holders};
use crate::in_use::InUse;
use crate::lacks::Lacks;
use crate::sealed::{is_sealed, sealed_count};
use crate::stripe_fragments::StripeFragments;
use crate::walk::KeyWalk;
use geometry::key::Key;
use geometry::row::RowLength;
use geometry::sizes::FRAGMENT_LENGTH;
use row::beside::Beside;
use row::one::One;
use row::row::ServerRow;
use server::stored::StoredFragment;
use shelf::shelf::Shelf;
use std::test::Fail;

#[test]
fn stripe_with_a_server_out(rt: HostRuntime) -> Result<(), Fail> {
    let early = Key::new(0, 7).ok_or("no key")?;
    let late = Key::new(1, 0).ok_or("no key")?;
    let place = StoredFragment::new(early, &[0; FRAGMENT_LENGTH]);
    let mut first = [place; 2];
    let mut second = [place; 2];
    let mut third = [place; 2];
    let mut row = Beside {
        left: One {
            server: Shelf::new(&mut first),
        },
        right: Beside {
            left: One {
                server: Shelf::new(&mut second),
            },
            right: One {
                server: Shelf::new(&mut third),
            },
        },
    };
    row.store(0, late, &[5; FRAGMENT_LENGTH])
        .map_err(|_| "full")?;
    row.store(2, late, &[6; FRAGMENT_LENGTH])
        .map_err(|_| "full")?;
    row.store(2, early, &[6; FRAGMENT_LENGTH])
        .map_err(|_| "full")?;

    let in_use = InUse {
        row: RowLength::new(3).ok_or("no row of 3")?,
        out: Some(1),
    };
    let used = in_use.servers();
    assert_eq!(rt;
        get_fragment(&mut row, in_use, late, 1),
        Ok([3; FRAGMENT_LENGTH])
    );
    let lacks = Lacks {
        server: 0,
        key: early,
    };
    assert_eq!(rt; get_fragment(&mut row, in_use, early, 1), Err(lacks));
    assert_eq!(rt; first_lacking_for(&mut row, in_use, early, 1), Some(0));
    assert_eq!(rt; first_lacking(&mut row, used, late), None);
    assert!(rt; is_sealed(&mut row, in_use, late));
    assert_eq!(rt; sealed_count(&mut row, in_use), 1);

    let both = holders(&mut row, used, late);
    assert!(rt; counts(in_use.row, both));
    let stripe = StripeFragments::read(&mut row, both, late).map_err(|_| "a server lacks it")?;
    assert_eq!(rt; stripe.on(1), &[3; FRAGMENT_LENGTH]);
    assert_eq!(rt; stripe.on(2), &[6; FRAGMENT_LENGTH]);

    let mut walk = KeyWalk::new(used);
    assert_eq!(rt; walk.next(&mut row), Some(early));
    assert_eq!(rt; walk.next(&mut row), Some(late));
    assert_eq!(rt; walk.next(&mut row), None);
    Ok(())
}
