// What a slot of a stripe holds.
use crate::key::BlockId;

pub type Content = [u8; 128];

pub const NO_CONTENT: Content = [0; 128];

#[derive(Clone, Copy, PartialEq, Eq)]
pub enum Kind {
    Write,
    Trim,
}

// How new a slot is: by its version, then by how often it was moved.
#[derive(Clone, Copy, PartialEq, Eq, PartialOrd, Ord)]
pub struct Pair {
    pub version: u32,
    pub moves: u16,
}

#[derive(Clone, Copy, PartialEq, Eq)]
pub struct Delta {
    pub kind: Kind,
    pub block: BlockId,
    pub pair: Pair,
}

// A filled slot. The content of a trim is zero.
#[derive(Clone, Copy, PartialEq, Eq)]
pub struct Slot {
    pub delta: Delta,
    pub content: Content,
}
