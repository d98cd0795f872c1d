// An open stripe: it was begun under a number, and is filled slot by slot until it is sealed.
use crate::sources::Sources;
use stripe::buffer::StripeBuffer;

mod calls;

#[derive(Drop)]
pub struct OpenStripe {
    begun: u32,
    buffer: StripeBuffer,
    sources: Sources,
}
