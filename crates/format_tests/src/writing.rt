// Writing gives the bytes that the rules give, and changes no other.
ghost use Rattle.std.specs.Prelude.{◌≤◌};

use crate::edges::*;
use crate::model::{Bytes, Content, Head, Slot, build};
use crate::noise::noise;
use crate::terms::{delta_of, name_of};
use fragment::codec::{block_in, fill_slot, layout_of, set_head};
use fragment::fault::NoSuchSlot;

// The bytes of `new` from `start` up to `end`, those of `old` elsewhere.
fn patched(old: &Bytes, new: &Bytes, start: usize, end: usize) -> Bytes
    requires ordered { start ≤ end }
    requires within { end ≤ 512 }
{
    let mut bytes = *old;
    bytes[start..end].copy_from_slice(&new[start..end]);
    bytes
}

// Whether the head is written as it should, and nothing else, over these bytes.
fn head_agrees(old: &Bytes, head: &Head) -> bool {
    let Some(name) = name_of(head) else {
        return false;
    };
    let mut bytes = *old;
    set_head(&mut bytes, name);
    let wanted = build::fragment(head, &[WRITE, WRITE, WRITE], &noise(1));
    bytes == patched(old, &wanted, 0, 32)
}

// Whether a slot is filled as it should, and nothing else, over these bytes; one beyond the third
// not at all.
fn slot_agrees(old: &Bytes, at: usize, slot: &Slot, content: &Content) -> bool {
    let Some(delta) = delta_of(slot) else {
        return false;
    };
    let wanted = build::fragment(&LAYOUT_2, &[*slot, *slot, *slot], content);
    let mut bytes = *old;
    match fill_slot(&mut bytes, at, &delta, content) {
        Ok(()) => at < 3 && bytes == patched(old, &wanted, 32 + 160 * at, 192 + 160 * at),
        Err(NoSuchSlot) => at >= 3 && bytes == *old,
    }
}

fn disputed_head(old: &Bytes) -> Option<Head> {
    find_head(|head| head.layout == 2 && !head_agrees(old, head))
}

const PLACES: [usize; 5] = [0, 1, 2, 3, usize::MAX];

fn disputed_slot(old: &Bytes) -> Option<(Slot, usize)> {
    PLACES.into_iter().find_map(|at| {
        let slot = find_slot(|slot| is_filled(slot) && !slot_agrees(old, at, slot, &noise(1)))?;
        Some((slot, at))
    })
}

// Whether the layout is the first byte, where that is 1 or 2.
fn layout_agrees(old: &Bytes, value: u8) -> bool {
    let mut bytes = *old;
    bytes[0] = value;
    layout_of(&bytes).map(u8::from) == (value == 1 || value == 2).then_some(value)
}

fn disputed_layout(old: &Bytes) -> Option<u8> {
    (0..=255).find(|value| !layout_agrees(old, *value))
}

// Whether the block of a slot is the 128 bytes after its delta.
fn block_agrees(fragment: &Bytes, at: usize) -> bool {
    match block_in(fragment, at) {
        Some(block) => at < 3 && block.as_slice() == &fragment[64 + 160 * at..192 + 160 * at],
        None => at >= 3,
    }
}

fn disputed_block(fragment: &Bytes) -> Option<usize> {
    PLACES.into_iter().find(|at| !block_agrees(fragment, *at))
}

#[test]
fn bytes_written(rt: HostRuntime) {
    let old = noise(2);
    assert_eq!(rt;
        (disputed_head(&old), disputed_slot(&old)),
        (None, None),
        "head; slot and its place"
    );
    assert_eq!(rt;
        (disputed_layout(&old), disputed_block(&old)),
        (None, None),
        "first byte; place of a block"
    );
}
