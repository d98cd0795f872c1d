// The rules of the formats, in plain numbers.
pub(crate) mod build;
pub(crate) mod order;
pub(crate) mod place;
pub(crate) mod read;
pub(crate) mod sum;

pub(crate) type Bytes = [u8; 512];

pub(crate) type Content = [u8; 128];

// What a head says. All but the stripe number have one byte.
#[derive(Clone, Copy, PartialEq, Eq, Debug)]
pub(crate) struct Head {
    pub layout: u8,
    pub row: u8,
    pub client: u8,
    pub index: u8,
    pub stripe: u32,
}

// What a slot says: kind 0 is an empty slot, 1 a write, 2 a trim. A number, since slots are built of
// other kinds too.
#[derive(Clone, Copy, PartialEq, Eq, Debug)]
pub(crate) struct Slot {
    pub kind: u8,
    pub file: u16,
    pub block: u16,
    pub version: u32,
    pub moves: u16,
}

pub(crate) const EMPTY: Slot = Slot {
    kind: 0,
    file: 0,
    block: 0,
    version: 0,
    moves: 0,
};

// What reading answers: the three slots, or the first cause, by its number as in `read`, since the
// model uses none of the code's enums.
pub(crate) type Answer = Result<[Slot; 3], u8>;
