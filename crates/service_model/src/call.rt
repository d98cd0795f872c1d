// The twelve calls, and what they answer.
use rack_model::fault::Fault;
use rack_model::key::{BlockId, Key};
use rack_model::slot::Content;

// The right to fill a client's open stripe. The model takes a ticket by its numbers, so that stale
// ones can be tried.
#[derive(Clone, Copy, PartialEq, Eq)]
pub struct Ticket {
    pub client: u8,
    pub begin: u32,
}

// A call on the rack. `budget` is how many changes to servers may be made before the power goes.
#[derive(Clone, Copy)]
pub enum Call {
    Begin {
        client: u8,
    },
    Park {
        ticket: Ticket,
    },
    PickUp {
        client: u8,
    },
    Write {
        ticket: Ticket,
        block: BlockId,
        content: Content,
    },
    Trim {
        ticket: Ticket,
        block: BlockId,
    },
    Gather {
        ticket: Ticket,
        key: Key,
    },
    Seal {
        ticket: Ticket,
        budget: u64,
    },
    Withdraw {
        ticket: Ticket,
    },
    Read {
        block: BlockId,
    },
    Pull {
        server: u8,
    },
    Rebuild {
        server: u8,
        budget: u64,
    },
    Restart {
        out: Option<u8>,
        budget: u64,
    },
}

#[derive(Clone, Copy, PartialEq, Eq)]
pub enum Answer {
    // Begin and pick up.
    Ticket(Ticket),
    // Park, withdraw and pull.
    Done,
    // Write and trim: the version taken.
    Version(u32),
    // Gather: how many slots were copied.
    Copies(u64),
    // Seal: how many slots took no entry.
    Behind(u64),
    // Read.
    Found { version: u32, content: Content },
    // Rebuild: how many fragments were stored.
    Rebuilt(u64),
    // Restart: how many stripes count.
    Counting(u64),
    Refused(Fault),
    // The power went. This has no number.
    Cut,
}
