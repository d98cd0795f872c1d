// What a fragment server does, in plain numbers.
pub(crate) mod area;
pub(crate) mod map;

pub(crate) type Bytes = [u8; 512];

// A key by its two numbers.
#[derive(Clone, Copy, PartialEq, Eq, Debug)]
pub(crate) struct Name {
    pub client: u8,
    pub stripe: u32,
}

// Whether the first of two names comes before the second: by client, then by stripe. Written out,
// since the code under test compares by derives and by one number.
pub(crate) fn precedes(left: Name, right: Name) -> bool {
    if left.client == right.client {
        left.stripe < right.stripe
    } else {
        left.client < right.client
    }
}

// What a call answers: nothing, or the number of a fault, since the model uses none of the code's
// enums.
pub(crate) type Done = Result<(), u8>;

pub(crate) const HELD: u8 = 1;

pub(crate) const FULL: u8 = 2;

pub(crate) const ABSENT: u8 = 3;
