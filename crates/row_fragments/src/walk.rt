// A walk over the keys that servers hold, in order.
use crate::server_set::ServerSet;
use geometry::key::Key;

mod calls;

#[derive(Clone, Copy, PartialEq, Eq, Debug)]
pub struct KeyWalk {
    servers: ServerSet,
    // The first key that is not passed yet, or none where all are.
    next: Option<Key>,
}
