// The ticket of an open stripe that a client holds.
use crate::number::ClientNumber;
use std::marker::PhantomData;

mod calls;
mod ends;

// Whoever holds a ticket owes its end: a seal, a withdraw or a park. So the type is not `Drop`, and
// a ticket cannot be let go or used again after its end. It is of a rack with a row of type R.
pub struct Ticket<R> {
    client: ClientNumber,
    begun: u32,
    row: PhantomData<R>,
}
