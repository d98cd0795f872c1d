// The sizes of what is stored. specs/Sizes.antt has the same numbers for the contracts.

pub const HEAD_LENGTH: usize = 32;

pub const DELTA_LENGTH: usize = 32;

pub const BLOCK_LENGTH: usize = 128;

pub const SLOT_LENGTH: usize = DELTA_LENGTH + BLOCK_LENGTH;

pub const SLOTS_IN_FRAGMENT: usize = 3;

pub const FRAGMENT_LENGTH: usize = HEAD_LENGTH + SLOTS_IN_FRAGMENT * SLOT_LENGTH;

// Clients are 0 to 7.
pub const CLIENTS: u64 = 8;

// A row has 3 to 8 servers.
pub const LEAST_SERVERS: u64 = 3;

pub const MOST_SERVERS: u64 = 8;

// Data fragments of a stripe on the longest row.
pub const MOST_DATA: usize = 7;

// Slots of a stripe on the longest row.
pub const MOST_SLOTS: usize = SLOTS_IN_FRAGMENT * MOST_DATA;

// The bytes of one block, and those of one fragment.
pub type Block = [u8; BLOCK_LENGTH];

pub type Fragment = [u8; FRAGMENT_LENGTH];
