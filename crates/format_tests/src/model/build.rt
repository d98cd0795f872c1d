// A fragment, byte by byte from its fields.
use crate::model::{Bytes, Content, Head, Slot};
use std::array;

// Byte `place` of a number of four bytes, low byte first.
fn byte_of(number: u32, place: usize) -> u8 {
    let rest = match place {
        0 => number,
        1 => number / 256,
        2 => number / 65536,
        _ => number / 16777216,
    };
    (rest % 256) as u8
}

pub(crate) fn head_byte(head: &Head, place: usize) -> u8 {
    match place {
        0 => head.layout,
        1 => head.row,
        2 => head.client,
        3 => head.index,
        4..=7 => byte_of(head.stripe, place - 4),
        _ => 0,
    }
}

// Layout 1 has its version where layout 2 has the moves, and in two bytes.
pub(crate) fn delta_byte(layout: u8, slot: &Slot, place: usize) -> u8 {
    match place {
        0 => slot.kind,
        2..=3 => byte_of(u32::from(slot.file), place - 2),
        4..=5 => byte_of(u32::from(slot.block), place - 4),
        6..=7 if layout == 1 => byte_of(slot.version, place - 6),
        6..=7 => byte_of(u32::from(slot.moves), place - 6),
        8..=11 if layout == 2 => byte_of(slot.version, place - 8),
        _ => 0,
    }
}

// Only a write has content.
fn slot_byte(layout: u8, slot: &Slot, content: &Content, place: usize) -> u8 {
    match place {
        0..32 => delta_byte(layout, slot, place),
        32..160 if slot.kind == 1 => content[place - 32],
        _ => 0,
    }
}

fn fragment_byte(head: &Head, slots: &[Slot; 3], content: &Content, place: usize) -> u8 {
    match place {
        0..32 => head_byte(head, place),
        32..192 => slot_byte(head.layout, &slots[0], content, place - 32),
        192..352 => slot_byte(head.layout, &slots[1], content, place - 192),
        352..512 => slot_byte(head.layout, &slots[2], content, place - 352),
        _ => 0,
    }
}

// The fragment with this head and these slots; every write has the same content.
pub(crate) fn fragment(head: &Head, slots: &[Slot; 3], content: &Content) -> Bytes {
    array::from_fn(|place| fragment_byte(head, slots, content, place))
}
