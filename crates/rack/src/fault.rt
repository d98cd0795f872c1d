// Why the service refuses a call: a cause, which has a number and a layer, and the place of it.
ghost use Rattle.std.specs.Prelude.{◌≡◌};
ghost use Rattle.rack.specs.Faults.{cause_number, layer_of};

use fragment::cause::Cause;
use geometry::key::Key;
use ordered::fault::MapFault;
use std::error::Error;
use std::fmt;

#[derive(Clone, Copy, PartialEq, Eq, Debug)]
pub enum FaultCause {
    // The service is cold, and only a restart goes on it.
    Cold,
    // There is no such server, or a row is not of 3 to 8.
    BadServer,
    // There is no such client, or the call is not this client's.
    BadClient,
    // The client has a stripe already.
    Busy,
    // The ticket is not that of a held stripe; or there is no parked one.
    Stale,
    // A server is out already, or another one is, or none.
    Out,
    // There is nothing to read, or no such stripe to gather.
    Absent,
    // The open stripe has no room.
    StripeFull,
    // A server has too few places free.
    Full,
    // The manager's table has too little room.
    TableFull,
    // A number has come to its end.
    Spent,
    // A server has not what it must have, or has what it must not.
    Torn(MapFault),
    // A fragment does not read back.
    BadFragment(Cause),
}

// What a fault comes from: the service itself, a server, or the bytes of a fragment.
#[derive(Clone, Copy, PartialEq, Eq, Debug)]
pub enum Layer {
    Service,
    Server,
    Fragment,
}

// What a fault names.
#[derive(Clone, Copy, PartialEq, Eq, Debug)]
pub enum Place {
    Nowhere,
    Client(u32),
    Server(u8),
    Stripe(Key),
    Fragment(u8, Key),
}

#[derive(Clone, Copy, PartialEq, Eq, Debug)]
pub struct ServiceFault {
    pub cause: FaultCause,
    pub place: Place,
}

impl FaultCause {
    pub fn number(&self) -> u8
        ensures { result ≡ cause_number self.now }
    {
        match self {
            FaultCause::Cold => 1,
            FaultCause::BadServer => 2,
            FaultCause::BadClient => 3,
            FaultCause::Busy => 4,
            FaultCause::Stale => 5,
            FaultCause::Out => 6,
            FaultCause::Absent => 7,
            FaultCause::StripeFull => 8,
            FaultCause::Full => 9,
            FaultCause::TableFull => 10,
            FaultCause::Spent => 11,
            FaultCause::Torn(_) => 12,
            FaultCause::BadFragment(_) => 13,
        }
    }

    pub fn layer(&self) -> Layer
        ensures { result ≡ layer_of self.now }
    {
        match self {
            FaultCause::Torn(_) => Layer::Server,
            FaultCause::BadFragment(_) => Layer::Fragment,
            _ => Layer::Service,
        }
    }
}

impl fmt::Display for FaultCause {
    fn fmt<W: fmt::Write>(&self, f: &mut fmt::Formatter<W>) -> fmt::Result {
        match self {
            FaultCause::Cold => f.write_str("the service is cold"),
            FaultCause::BadServer => f.write_str("no such server in a row of 3 to 8"),
            FaultCause::BadClient => f.write_str("not a client for this call"),
            FaultCause::Busy => f.write_str("the client has a stripe already"),
            FaultCause::Stale => f.write_str("no stripe of this ticket is held"),
            FaultCause::Out => f.write_str("another server is out, or none"),
            FaultCause::Absent => f.write_str("it is not there"),
            FaultCause::StripeFull => f.write_str("the open stripe is full"),
            FaultCause::Full => f.write_str("a server has too few places free"),
            FaultCause::TableFull => f.write_str("the table is full"),
            FaultCause::Spent => f.write_str("numbers are used up"),
            FaultCause::Torn(fault) => write!(f, "a server refused: {fault}"),
            FaultCause::BadFragment(cause) => {
                write!(f, "a fragment does not read back: {cause}")
            }
        }
    }
}

impl fmt::Display for Place {
    fn fmt<W: fmt::Write>(&self, f: &mut fmt::Formatter<W>) -> fmt::Result {
        match self {
            Place::Nowhere => Ok(()),
            Place::Client(client) => write!(f, ", client {client}"),
            Place::Server(server) => write!(f, ", server {server}"),
            Place::Stripe(key) => write!(f, ", stripe {} of client {}", key.stripe(), key.client()),
            Place::Fragment(server, key) => write!(
                f,
                ", server {server}, stripe {} of client {}",
                key.stripe(),
                key.client()
            ),
        }
    }
}

// By hand: the number comes first, and the place last.
impl fmt::Display for ServiceFault {
    fn fmt<W: fmt::Write>(&self, f: &mut fmt::Formatter<W>) -> fmt::Result {
        write!(
            f,
            "fault {}: {}{}",
            self.cause.number(),
            self.cause,
            self.place
        )
    }
}

impl Error for ServiceFault {}
