// Data fragments as bytes. Both layouts are read, and only layout 2 is written.
use crate::fault::Flaw;
use crate::key::{BlockId, Key};
use crate::slot::{Content, Delta, Kind, NO_CONTENT, Pair, Slot};

pub type Bytes = [u8; 512];

pub const EMPTY: Bytes = [0; 512];

// Which data fragment is meant.
#[derive(Clone, Copy, PartialEq, Eq)]
pub struct Wanted {
    pub servers: u8,
    pub key: Key,
    pub index: u8,
}

// A fragment's three slots; none where a slot is empty.
pub type Slots = [Option<Slot>; 3];

// Where the slots begin.
const FIRST_BYTES: [usize; 3] = [32, 192, 352];

// A byte of a fragment, or zero beyond its end.
fn byte(bytes: &Bytes, at: usize) -> u8 {
    bytes.get(at).copied().unwrap_or(0)
}

fn two_bytes(bytes: &Bytes, at: usize) -> u16 {
    let high = byte(bytes, at.saturating_add(1));
    u16::from_le_bytes([byte(bytes, at), high])
}

fn four_bytes(bytes: &Bytes, at: usize) -> u32 {
    let low = two_bytes(bytes, at);
    let high = two_bytes(bytes, at.saturating_add(2));
    u32::from(low) + u32::from(high) * 65536
}

fn are_zero(bytes: &Bytes, from: usize, end: usize) -> bool {
    (from..end).all(|at| byte(bytes, at) == 0)
}

fn content_at(bytes: &Bytes, at: usize) -> Content {
    let mut content = NO_CONTENT;
    for (to, from) in content.iter_mut().zip(bytes.iter().skip(at)) {
        *to = *from;
    }
    content
}

// The pair of the slot that begins here. Layout 1 has its version in two bytes and no moves.
fn pair_at(bytes: &Bytes, at: usize, layout: u8) -> Pair {
    let number = two_bytes(bytes, at.saturating_add(6));
    if layout == 1 {
        Pair {
            version: u32::from(number),
            moves: 0,
        }
    } else {
        Pair {
            version: four_bytes(bytes, at.saturating_add(8)),
            moves: number,
        }
    }
}

fn kind_at(bytes: &Bytes, at: usize, layout: u8) -> Result<Kind, Flaw> {
    match byte(bytes, at) {
        1 => Ok(Kind::Write),
        2 if layout == 2 => Ok(Kind::Trim),
        _ => Err(Flaw::Slot),
    }
}

// Whether the bytes of a delta that mean nothing in this layout are zero.
fn padding_is_zero(bytes: &Bytes, at: usize, layout: u8) -> bool {
    let used = if layout == 1 { 8 } else { 12 };
    byte(bytes, at.saturating_add(1)) == 0
        && are_zero(bytes, at.saturating_add(used), at.saturating_add(32))
}

fn filled_slot(bytes: &Bytes, at: usize, layout: u8) -> Result<Slot, Flaw> {
    let kind = kind_at(bytes, at, layout)?;
    let pair = pair_at(bytes, at, layout);
    let content = content_at(bytes, at.saturating_add(32));
    let trim_is_bare = kind == Kind::Write || content == NO_CONTENT;
    if pair.version == 0 || !trim_is_bare || !padding_is_zero(bytes, at, layout) {
        return Err(Flaw::Slot);
    }
    let block = BlockId {
        file: two_bytes(bytes, at.saturating_add(2)),
        block: two_bytes(bytes, at.saturating_add(4)),
    };
    let delta = Delta { kind, block, pair };
    Ok(Slot { delta, content })
}

fn slot_at(bytes: &Bytes, at: usize, layout: u8) -> Result<Option<Slot>, Flaw> {
    if are_zero(bytes, at, at.saturating_add(160)) {
        return Ok(None);
    }
    Ok(Some(filled_slot(bytes, at, layout)?))
}

fn head_fits(bytes: &Bytes, wanted: Wanted) -> bool {
    byte(bytes, 2) == wanted.key.client
        && byte(bytes, 3) == wanted.index
        && four_bytes(bytes, 4) == wanted.key.stripe
        && are_zero(bytes, 8, 32)
}

// The slots of the fragment wanted, or the first thing that is wrong with these bytes.
pub fn read(bytes: &Bytes, wanted: Wanted) -> Result<Slots, Flaw> {
    let layout = byte(bytes, 0);
    if layout != 1 && layout != 2 {
        return Err(Flaw::Layout);
    }
    if byte(bytes, 1) != wanted.servers {
        return Err(Flaw::RowLength);
    }
    if !head_fits(bytes, wanted) {
        return Err(Flaw::Head);
    }
    let [first, second, third] = FIRST_BYTES;
    Ok([
        slot_at(bytes, first, layout)?,
        slot_at(bytes, second, layout)?,
        slot_at(bytes, third, layout)?,
    ])
}

fn put(bytes: &mut Bytes, at: usize, part: &[u8]) {
    for (to, from) in bytes.iter_mut().skip(at).zip(part) {
        *to = *from;
    }
}

fn put_slot(bytes: &mut Bytes, at: usize, slot: &Slot) {
    let delta = slot.delta;
    let kind = match delta.kind {
        Kind::Write => 1,
        Kind::Trim => 2,
    };
    put(bytes, at, &[kind]);
    put(bytes, at.saturating_add(2), &delta.block.file.to_le_bytes());
    put(
        bytes,
        at.saturating_add(4),
        &delta.block.block.to_le_bytes(),
    );
    put(bytes, at.saturating_add(6), &delta.pair.moves.to_le_bytes());
    put(
        bytes,
        at.saturating_add(8),
        &delta.pair.version.to_le_bytes(),
    );
    put(bytes, at.saturating_add(32), &slot.content);
}

// The data fragment wanted of a stripe with these slots.
pub fn written(wanted: Wanted, slots: &[Slot]) -> Bytes {
    let mut bytes = EMPTY;
    put(
        &mut bytes,
        0,
        &[2, wanted.servers, wanted.key.client, wanted.index],
    );
    put(&mut bytes, 4, &wanted.key.stripe.to_le_bytes());
    let before = usize::from(wanted.index) * 3;
    for (at, slot) in FIRST_BYTES.iter().zip(slots.iter().skip(before)) {
        put_slot(&mut bytes, *at, slot);
    }
    bytes
}
