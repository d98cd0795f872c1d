// What reading any 512 bytes must answer: three slots, or the number of the first cause that holds.
//
//     1    the layout is neither 1 nor 2
//     2    byte 1 is not the row length
//     3    another byte of the head is not as asked for, or the row has no such index
//     4    a slot breaks a rule
ghost use Rattle.std.specs.Prelude.{◌+◌, ◌≤◌};

use crate::model::build::{delta_byte, head_byte};
use crate::model::{Answer, Bytes, EMPTY, Head, Slot};

// Places are counted from the fragment's first byte, as the rules print them, and not in parts of it.
fn two_bytes(bytes: &Bytes, at: usize) -> u16
    requires { at + 2 ≤ 512 }
{
    u16::from(bytes[at]) + 256 * u16::from(bytes[at + 1])
}

fn four_bytes(bytes: &Bytes, at: usize) -> u32
    requires { at + 4 ≤ 512 }
{
    u32::from(two_bytes(bytes, at)) + 65536 * u32::from(two_bytes(bytes, at + 2))
}

// The fields of the slot that begins at byte `at`, whether it keeps the rules or not.
fn fields(bytes: &Bytes, at: usize, layout: u8) -> Slot
    requires { at + 160 ≤ 512 }
{
    let kind = bytes[at];
    let file = two_bytes(bytes, at + 2);
    let block = two_bytes(bytes, at + 4);
    let third = two_bytes(bytes, at + 6);
    if layout == 1 {
        Slot {
            kind,
            file,
            block,
            version: u32::from(third),
            moves: 0,
        }
    } else {
        Slot {
            kind,
            file,
            block,
            version: four_bytes(bytes, at + 8),
            moves: third,
        }
    }
}

// Whether the 32 bytes of a delta hold these fields and nothing else.
fn delta_holds(bytes: &Bytes, at: usize, layout: u8, slot: &Slot) -> bool
    requires { at + 160 ≤ 512 }
{
    (0..32).all(|place| bytes[at + place] == delta_byte(layout, slot, place))
}

fn block_is_zero(bytes: &Bytes, at: usize) -> bool
    requires { at + 160 ≤ 512 }
{
    bytes[at + 32..at + 160].iter().all(|byte| *byte == 0)
}

// The slot that begins at byte `at`, or none where it breaks a rule.
fn slot_at(bytes: &Bytes, at: usize, layout: u8) -> Option<Slot>
    requires { at + 160 ≤ 512 }
{
    let slot = fields(bytes, at, layout);
    let keeps = match slot.kind {
        0 => slot == EMPTY && block_is_zero(bytes, at),
        1 => slot.version >= 1,
        2 => layout == 2 && slot.version >= 1 && block_is_zero(bytes, at),
        _ => false,
    };
    (keeps && delta_holds(bytes, at, layout, &slot)).then_some(slot)
}

// Whether bytes 2 to 31 are those of the fragment wanted, and the row has its index. Bytes and head
// go apart, since the tests alter one of them and keep the other.
fn head_fits(bytes: &Bytes, wanted: &Head) -> bool {
    (2..32).all(|place| bytes[place] == head_byte(wanted, place))
        && u32::from(wanted.index) + 2 <= u32::from(wanted.row)
}

// What reading must answer where the fragment of this row, key and index is asked for. Whatever
// layout `wanted` names, both are read.
pub(crate) fn answer(bytes: &Bytes, wanted: &Head) -> Answer {
    let layout = bytes[0];
    if layout != 1 && layout != 2 {
        return Err(1);
    }
    if bytes[1] != wanted.row {
        return Err(2);
    }
    if !head_fits(bytes, wanted) {
        return Err(3);
    }
    Ok([
        slot_at(bytes, 32, layout).ok_or(4)?,
        slot_at(bytes, 192, layout).ok_or(4)?,
        slot_at(bytes, 352, layout).ok_or(4)?,
    ])
}
