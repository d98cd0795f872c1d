// Names of stripes and of blocks.

// A stripe's name. Keys are ordered by client first.
#[derive(Clone, Copy, PartialEq, Eq, PartialOrd, Ord)]
pub struct Key {
    pub client: u8,
    pub stripe: u32,
}

#[derive(Clone, Copy, PartialEq, Eq, PartialOrd, Ord)]
pub struct BlockId {
    pub file: u16,
    pub block: u16,
}
