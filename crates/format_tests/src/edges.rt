// Heads and slots, good ones and those at the edges of every field. No two bytes of a number between
// the edges are equal, so that none can stand in another's place.
use crate::model::{Head, Slot};

pub(crate) const WRITE: Slot = Slot {
    kind: 1,
    file: 0x0102,
    block: 0x0304,
    version: 0x05060708,
    moves: 0x090a,
};

pub(crate) const TRIM: Slot = Slot {
    kind: 2,
    file: 0x0102,
    block: 0x0304,
    version: 0x05060708,
    moves: 0x090a,
};

pub(crate) const LAYOUT_1: Head = Head {
    layout: 1,
    row: 5,
    client: 3,
    index: 2,
    stripe: 0x12345678,
};

pub(crate) const LAYOUT_2: Head = Head {
    layout: 2,
    row: 5,
    client: 3,
    index: 2,
    stripe: 0x12345678,
};

const KINDS: [u8; 5] = [0, 1, 2, 3, 255];

const NUMBERS: [u16; 3] = [0, 0x0102, 65535];

const VERSIONS: [u32; 6] = [0, 1, 65535, 65536, 0x01020304, 4294967295];

const STRIPES: [u32; 3] = [0, 0x01020304, 4294967295];

const CLIENTS: [u8; 2] = [0, 7];

// The first two values of a list that the test finds, each beside each.
pub(crate) fn find_two<T: Copy, F: Fn(T, T) -> bool>(all: &[T], test: F) -> Option<(T, T)>
    requires { F.IsAlwaysCallable test }
{
    all.iter().find_map(|left| {
        let right = all.iter().find(|right| test(*left, **right))?;
        Some((*left, *right))
    })
}

// The first slot that the test finds, of all combinations of the edges of a slot's fields.
// Loops, here and below, since five iterators within one another are no plainer.
pub(crate) fn find_slot<F: Fn(&Slot) -> bool>(test: F) -> Option<Slot>
    requires { F.IsAlwaysCallable test }
{
    for moves in NUMBERS {
        for block in NUMBERS {
            for file in NUMBERS {
                for version in VERSIONS {
                    for kind in KINDS {
                        let slot = Slot {
                            kind,
                            file,
                            block,
                            version,
                            moves,
                        };
                        if test(&slot) {
                            return Some(slot);
                        }
                    }
                }
            }
        }
    }
    None
}

// Whether layout 2 has a filled slot with these fields.
pub(crate) fn is_filled(slot: &Slot) -> bool {
    (slot.kind == 1 || slot.kind == 2) && slot.version >= 1
}

// The first head that the test finds, of all combinations of both layouts, rows of 3 to 8, indexes 0
// to 8, and the edges of a key.
pub(crate) fn find_head<F: Fn(&Head) -> bool>(test: F) -> Option<Head>
    requires { F.IsAlwaysCallable test }
{
    for stripe in STRIPES {
        for client in CLIENTS {
            for index in 0..=8 {
                for row in 3..=8 {
                    for layout in 1..=2 {
                        let head = Head {
                            layout,
                            row,
                            client,
                            index,
                            stripe,
                        };
                        if test(&head) {
                            return Some(head);
                        }
                    }
                }
            }
        }
    }
    None
}
