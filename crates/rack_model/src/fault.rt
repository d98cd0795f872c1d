// Refusals: a number, the layer that found the fault, and the place that it names.
use crate::key::Key;

// Why a fragment server refuses.
#[derive(Clone, Copy, PartialEq, Eq)]
pub enum ServerFault {
    Held,
    Full,
    Absent,
}

// The first thing wrong with a fragment.
#[derive(Clone, Copy, PartialEq, Eq)]
pub enum Flaw {
    Layout,
    RowLength,
    Head,
    Slot,
}

// Why the service refuses, in the order in which a call looks for a reason.
#[derive(Clone, Copy, PartialEq, Eq)]
pub enum Cause {
    Cold,
    BadServer,
    BadClient,
    Busy,
    Stale,
    Out,
    Absent,
    StripeFull,
    Full,
    TableFull,
    Spent,
    Torn(ServerFault),
    BadFragment(Flaw),
}

#[derive(Clone, Copy, PartialEq, Eq)]
pub enum Layer {
    Server,
    Fragment,
    Service,
}

#[derive(Clone, Copy, PartialEq, Eq)]
pub enum Place {
    Nowhere,
    Client(u8),
    Server(u8),
    Stripe(Key),
    Fragment { server: u8, key: Key },
}

#[derive(Clone, Copy, PartialEq, Eq)]
pub struct Fault {
    pub cause: Cause,
    pub place: Place,
}

impl ServerFault {
    pub fn number(self) -> u8 {
        match self {
            ServerFault::Held => 1,
            ServerFault::Full => 2,
            ServerFault::Absent => 3,
        }
    }
}

impl Flaw {
    pub fn number(self) -> u8 {
        match self {
            Flaw::Layout => 1,
            Flaw::RowLength => 2,
            Flaw::Head => 3,
            Flaw::Slot => 4,
        }
    }
}

impl Cause {
    pub fn number(self) -> u8 {
        match self {
            Cause::Cold => 1,
            Cause::BadServer => 2,
            Cause::BadClient => 3,
            Cause::Busy => 4,
            Cause::Stale => 5,
            Cause::Out => 6,
            Cause::Absent => 7,
            Cause::StripeFull => 8,
            Cause::Full => 9,
            Cause::TableFull => 10,
            Cause::Spent => 11,
            Cause::Torn(_) => 12,
            Cause::BadFragment(_) => 13,
        }
    }
}

impl Fault {
    pub fn layer(self) -> Layer {
        match self.cause {
            Cause::Torn(_) => Layer::Server,
            Cause::BadFragment(_) => Layer::Fragment,
            _ => Layer::Service,
        }
    }
}
