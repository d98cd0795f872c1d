// All fragments of one stripe, of which one may be missing.
use crate::server_set::ServerSet;
use geometry::sizes::{Fragment, MOST_SERVERS};

mod calls;

// Of the servers that hold theirs, what they hold; of any other, what these are together.
#[derive(Drop)]
pub struct StripeFragments {
    holders: ServerSet,
    held: [Fragment; MOST_SERVERS as usize],
    together: Fragment,
}
