// What a client is doing.
use rack_model::key::Key;
use rack_model::slot::Slot;
use std::alloc::Global;
use std::mem;

// How many stripes a cleaner may gather into one.
pub const MOST_SOURCES: usize = 8;

// A stripe being filled, with the stripes that its seal does away with.
#[derive(Drop)]
pub struct OpenStripe {
    pub slots: Vec<Slot>,
    pub sources: Vec<Key>,
}

impl OpenStripe {
    pub fn new(heap: Global) -> OpenStripe {
        OpenStripe {
            slots: Vec::new(heap),
            sources: Vec::new(heap),
        }
    }
}

#[derive(Drop)]
pub enum Client {
    Idle,
    Held { begin: u32, open: OpenStripe },
    Parked { begin: u32, open: OpenStripe },
}

impl Client {
    // The open stripe, whether the ticket is held or parked.
    pub fn open(&self) -> Option<&OpenStripe> {
        match self {
            Client::Idle => None,
            Client::Held { open, .. } => Some(open),
            Client::Parked { open, .. } => Some(open),
        }
    }

    // The open stripe that this begin number's ticket may fill.
    pub fn held(&self, number: u32) -> Option<&OpenStripe> {
        match self {
            Client::Held { begin, open } if *begin == number => Some(open),
            _ => None,
        }
    }

    pub fn held_mut(&mut self, number: u32) -> Option<&mut OpenStripe> {
        match self {
            Client::Held { begin, open } if *begin == number => Some(open),
            _ => None,
        }
    }

    // Held becomes parked; any other state stays.
    pub fn park(&mut self) {
        *self = match mem::replace(self, Client::Idle) {
            Client::Held { begin, open } => Client::Parked { begin, open },
            other => other,
        };
    }

    // Parked becomes held, and its begin number is answered; any other state stays.
    pub fn pick_up(&mut self) -> Option<u32> {
        match mem::replace(self, Client::Idle) {
            Client::Parked { begin, open } => {
                *self = Client::Held { begin, open };
                Some(begin)
            }
            other => {
                *self = other;
                None
            }
        }
    }
}
