// The boxes: a shelf, a log and a cached shelf, over memory of the program's.
use geometry::key::Key;
use geometry::row::RowLength;
use geometry::sizes::FRAGMENT_LENGTH;
use log_server::log::LogServer;
use row::beside::Beside;
use row::one::One;
use row_packing::fault::PackFault;
use server::stored::StoredFragment;
use std::alloc::Global;

// What kind each box is, in order.
pub(crate) const KINDS: [&str; 3] = ["a shelf", "a log", "a cached shelf"];

// As many stripes as so many readings can fill, at least 1.
pub(crate) fn most_stripes(row: RowLength, readings: usize) -> usize {
    readings.div_ceil(row.slots()).max(1)
}

// Places for a shelf. What they hold before it uses them does not matter.
pub(crate) fn places(heap: Global, count: usize) -> Result<Vec<StoredFragment>, PackFault> {
    let place = StoredFragment::new(Key::new(0, 0).unwrap(), &[0; FRAGMENT_LENGTH]);
    Ok(vec![in heap; place; count]?)
}

// Bytes for a log, all of its records free.
pub(crate) fn area(heap: Global, records: usize) -> anyhow::Result<Vec<u8>> {
    let length = LogServer::length_for(u32::try_from(records)?);
    Ok(vec![in heap; 0; length]?)
}

// Three boxes in a row.
pub(crate) type Boxes<A, B, C> = Beside<One<A>, Beside<One<B>, One<C>>>;

pub(crate) fn in_a_row<A, B, C>(first: A, second: B, third: C) -> Boxes<A, B, C> {
    Beside {
        left: One { server: first },
        right: Beside {
            left: One { server: second },
            right: One { server: third },
        },
    }
}
