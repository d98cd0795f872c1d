// A slot: a delta of 32 bytes, then the 128 bytes of a block.
//
//     byte    layout 2                    layout 1
//     0       0 empty, 1 write, 2 trim    0 empty, 1 write
//     1       0                           0
//     2-3     file                        file
//     4-5     block                       block
//     6-7     moves                       version
//     8-11    version                     0
//     12-31   0                           0
//
// Numbers are stored low byte first. An empty slot is all zero, a trim's block is all zero, and a
// filled slot has version 1 or more.
ghost use Rattle.std.specs.Prelude.{◌≡◌, length, Some};
ghost use Rattle.geometry.specs.Sizes.{slot_length};
ghost use Rattle.fragment.specs.Slots.{delta_bytes, slot_bytes, filled_with, read_slot, delta_answer, kind_in, delta_in, rest_is_zero, content_fits, is_sound};

use crate::cause::Cause;
use crate::delta::{Delta, Kind};
use crate::layout::Layout;
use geometry::bytes::all_zero;
use geometry::sizes::{Block, DELTA_LENGTH, SLOT_LENGTH};

// The bytes of one slot.
pub(crate) type Slot = [u8; SLOT_LENGTH];

fn delta_bytes(delta: &Delta) -> [u8; DELTA_LENGTH]
    ensures { result ≡ delta_bytes delta.now }
{
    let kind = u8::from(delta.kind);
    let [f0, f1] = delta.file.to_le_bytes();
    let [b0, b1] = delta.block.to_le_bytes();
    let [m0, m1] = delta.moves.to_le_bytes();
    let [v0, v1, v2, v3] = delta.version.to_le_bytes();
    [
        kind, 0, f0, f1, b0, b1, m0, m1, v0, v1, v2, v3, 0, 0, 0, 0, 0, 0, 0, 0, 0, 0, 0, 0, 0, 0,
        0, 0, 0, 0, 0, 0,
    ]
}

// Writes a filled slot of layout 2 over the whole of `out`, which is the slot's own part of a
// larger area. A trim keeps no bytes. A slice: the slot's part is handed on (docs/DECISIONS.md).
// A delta and its block stay two parameters, here and where slots are filled: callers have them apart.
pub(crate) fn write_slot(out: &mut [u8], delta: &Delta, block: &Block)
    requires { length out.old ≡ slot_length }
    ensures { out.new ≡ slot_bytes (Some (filled_with delta.now block.now)) }
{
    let front = delta_bytes(delta);
    out[0..DELTA_LENGTH].copy_from_slice(&front);
    match delta.kind {
        Kind::Write => out[DELTA_LENGTH..SLOT_LENGTH].copy_from_slice(block),
        Kind::Trim => out[DELTA_LENGTH..SLOT_LENGTH].fill(0),
    }
}

// The kind that a filled slot of this layout has under this byte. No `TryFrom`, which takes one value:
// which bytes are kinds depends on the layout.
fn kind_in(layout: Layout, byte: u8) -> Option<Kind>
    ensures { result ≡ kind_in layout byte }
{
    match (layout, byte) {
        (_, 1) => Some(Kind::Write),
        (Layout::Two, 2) => Some(Kind::Trim),
        _ => None,
    }
}

// What follows are the steps of reading one slot. Most take a layout and the slot's bytes: a struct of
// the two would be taken apart again in each.

// The delta of a slot of this kind.
fn delta_in(layout: Layout, kind: Kind, slot: &Slot) -> Delta
    ensures { result ≡ delta_in layout kind slot.now }
{
    let file = u16::from_le_bytes([slot[2], slot[3]]);
    let block = u16::from_le_bytes([slot[4], slot[5]]);
    let short = u16::from_le_bytes([slot[6], slot[7]]);
    match layout {
        Layout::One => Delta {
            kind,
            file,
            block,
            version: u32::from(short),
            moves: 0,
        },
        Layout::Two => {
            let version = u32::from_le_bytes([slot[8], slot[9], slot[10], slot[11]]);
            Delta {
                kind,
                file,
                block,
                version,
                moves: short,
            }
        }
    }
}

// Whether the bytes of a delta that have no use are zero.
fn rest_is_zero(layout: Layout, slot: &Slot) -> bool
    ensures { result ≡ rest_is_zero layout slot.now }
{
    let used = match layout {
        Layout::One => 8,
        Layout::Two => 12,
    };
    slot[1] == 0 && all_zero(&slot[used..DELTA_LENGTH])
}

// Whether a block's bytes are what this kind of slot may have.
fn content_fits(kind: Kind, block: &[u8]) -> bool
    ensures { result ≡ content_fits kind block.now }
{
    match kind {
        Kind::Write => true,
        Kind::Trim => all_zero(block),
    }
}

// Whether a slot of this kind keeps the rules of its layout.
fn is_sound(layout: Layout, kind: Kind, slot: &Slot) -> bool
    ensures { result ≡ is_sound layout kind slot.now }
{
    let (_, block) = slot.split_at(DELTA_LENGTH);
    rest_is_zero(layout, slot)
        && delta_in(layout, kind, slot).version > 0
        && content_fits(kind, block)
}

// The delta of the slot that these bytes are, none for an empty slot, or that they break a rule.
pub(crate) fn read_slot(slot: &Slot, layout: Layout) -> Result<Option<Delta>, Cause>
    ensures { result ≡ delta_answer (read_slot layout slot.now) }
{
    if all_zero(slot) {
        return Ok(None);
    }
    let kind = kind_in(layout, slot[0]).ok_or(Cause::BadSlot)?;
    if is_sound(layout, kind, slot) {
        Ok(Some(delta_in(layout, kind, slot)))
    } else {
        Err(Cause::BadSlot)
    }
}
