// Reading any bytes gives the answer that the rules give.
ghost use Rattle.std.specs.Prelude.{◌<◌};

use crate::edges::*;
use crate::model::{Answer, Bytes, EMPTY, Head, Slot, build, read};
use crate::noise::noise;
use crate::terms::name_of;
use fragment::codec;
use fragment::delta::Delta;

fn plain(delta: Option<Delta>) -> Slot {
    delta.map_or(EMPTY, Slot::from)
}

// The code's answer in the model's terms, none where the code has no such row or key. Bytes and head
// go apart, since the tests alter one of them and keep the other.
fn code_answer(bytes: &Bytes, wanted: &Head) -> Option<Answer> {
    let answer = codec::read(bytes, name_of(wanted)?);
    Some(answer.map(|deltas| deltas.map(plain)).map_err(u8::from))
}

fn agree(bytes: &Bytes, wanted: &Head) -> bool {
    code_answer(bytes, wanted) == Some(read::answer(bytes, wanted))
}

fn both_answer(bytes: &Bytes, wanted: &Head, answer: Answer) -> bool {
    code_answer(bytes, wanted) == Some(answer) && agree(bytes, wanted)
}

// Whether code and model agree on the fragment with any value at this place.
fn agree_at(good: &Bytes, wanted: &Head, place: usize) -> bool
    requires { place < 512 }
{
    (0..=255).all(|value| {
        let mut bytes = *good;
        bytes[place] = value;
        agree(&bytes, wanted)
    })
}

// The first byte of which some value is read in two ways. Head and slots go apart, since the tests
// put several of the one beside the same other.
fn disputed_byte(head: &Head, slots: &[Slot; 3]) -> Option<usize> {
    let good = build::fragment(head, slots, &noise(1));
    (0..512).find(|place| !agree_at(&good, head, *place))
}

// In layout 2 each kind of slot stands once in each place.
#[test]
fn any_byte_altered(rt: HostRuntime) {
    let first = disputed_byte(&LAYOUT_2, &[WRITE, TRIM, EMPTY]);
    let second = disputed_byte(&LAYOUT_2, &[EMPTY, WRITE, TRIM]);
    let third = disputed_byte(&LAYOUT_2, &[TRIM, EMPTY, WRITE]);
    assert_eq!(rt;
        (first, second, third),
        (None, None, None),
        "bytes in layout 2"
    );
    let first = disputed_byte(&LAYOUT_1, &[WRITE, EMPTY, WRITE]);
    let second = disputed_byte(&LAYOUT_1, &[EMPTY, WRITE, EMPTY]);
    assert_eq!(rt; (first, second), (None, None), "bytes in layout 1");
}

// Places in a fragment of a write, a trim and an empty slot where a change is a fault.
const FAULTS: [usize; 20] = [
    0, 1, 2, 3, 4, 7, 8, 31, 32, 33, 44, 63, 192, 193, 204, 224, 351, 352, 384, 511,
];

// The cause that a fault at this place has.
fn cause_at(place: usize) -> u8 {
    match place {
        0 => 1,
        1 => 2,
        2..32 => 3,
        _ => 4,
    }
}

// The fragment with a bit turned at two places.
fn spoiled(good: &Bytes, first: usize, second: usize) -> Bytes {
    let mut bytes = *good;
    for (place, byte) in bytes.iter_mut().enumerate() {
        if place == first || place == second {
            *byte ^= 4;
        }
    }
    bytes
}

// Two places whose faults together do not have the cause of the first.
fn disordered_places(good: &Bytes) -> Option<(usize, usize)> {
    find_two(&FAULTS, |first, second| {
        let cause = cause_at(first.min(second));
        !both_answer(&spoiled(good, first, second), &LAYOUT_2, Err(cause))
    })
}

// Whether an index beyond N − 2 is refused as cause 3, though the fragment has it.
fn index_agrees(row: u8, index: u8) -> bool {
    let head = Head {
        layout: 2,
        row,
        client: 3,
        index,
        stripe: 7,
    };
    let bytes = build::fragment(&head, &[WRITE, TRIM, EMPTY], &noise(1));
    u32::from(index) + 2 <= u32::from(row) || both_answer(&bytes, &head, Err(3))
}

// A row and an index beyond its last that is read otherwise.
fn index_beyond() -> Option<(u8, u8)> {
    (3..=8).find_map(|row| {
        let index = (0..=255).find(|index| !index_agrees(row, *index))?;
        Some((row, index))
    })
}

#[test]
fn first_cause_named(rt: HostRuntime) {
    let slots = [WRITE, TRIM, EMPTY];
    let good = build::fragment(&LAYOUT_2, &slots, &noise(1));
    assert!(rt;
        both_answer(&good, &LAYOUT_2, Ok(slots)),
        "the fragment unspoiled"
    );
    assert_eq!(rt;
        (disordered_places(&good), index_beyond()),
        (None, None),
        "places of two faults; row and index"
    );
}

// Whether code and model agree on these slots, and give them back where layout 2 has them.
fn slots_agree(head: &Head, slots: &[Slot; 3], is_sound: bool) -> bool {
    let bytes = build::fragment(head, slots, &noise(1));
    if is_sound && head.layout == 2 {
        both_answer(&bytes, head, Ok(*slots))
    } else {
        agree(&bytes, head)
    }
}

fn slot_agrees(head: &Head, slot: Slot) -> bool {
    let sound = is_filled(&slot);
    slots_agree(head, &[slot, EMPTY, EMPTY], sound)
        && slots_agree(head, &[EMPTY, slot, EMPTY], sound)
        && slots_agree(head, &[EMPTY, EMPTY, slot], sound)
}

fn disputed_slot() -> Option<Slot> {
    find_slot(|slot| !slot_agrees(&LAYOUT_1, *slot) || !slot_agrees(&LAYOUT_2, *slot))
}

// Whether code and model agree on a fragment where any head is asked for.
fn head_agrees(head: &Head) -> bool {
    let bytes = build::fragment(head, &[WRITE, EMPTY, WRITE], &noise(1));
    find_head(|other| !agree(&bytes, other)).is_none()
}

fn disputed_head() -> Option<Head> {
    find_head(|head| !head_agrees(head))
}

#[test]
fn edges_of_fields(rt: HostRuntime) {
    assert_eq!(rt;
        (disputed_slot(), disputed_head()),
        (None, None),
        "slot; head"
    );
}
