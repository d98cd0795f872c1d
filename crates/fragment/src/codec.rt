// Reading and writing whole data fragments.
ghost use Rattle.std.specs.Prelude.{◌≡◌, ◌<◌, ◌≤◌, ◌++◌, length, drop, if◌then◌else◌, Ok, MatchOption, is_ok, nat_lt, slice_index};
ghost use Rattle.geometry.specs.Keys.{number_of};
ghost use Rattle.geometry.specs.Sizes.{head_length, delta_length, block_length, slots_in_fragment};
ghost use Rattle.fragment.specs.Slots.{filled_with, read_slot, delta_answer};
ghost use Rattle.fragment.specs.Heads.{head_bytes, layout_in};
ghost use Rattle.fragment.specs.Fragments.{slot_in, slots_under, read_fragment, deltas_answer, put_slot};
ghost use Rattle.fragment.specs.Laws.{ReadsBack, OneForm, OlderSlots, OtherLayouts, OnlyTheSlot};

use crate::cause::Cause;
use crate::delta::Delta;
use crate::fault::NoSuchSlot;
use crate::head::{read_head, write_head};
use crate::layout::Layout;
use crate::name::FragmentName;
use crate::slot::{Slot, read_slot, write_slot};
use geometry::sizes::{Block, DELTA_LENGTH, Fragment, HEAD_LENGTH, SLOT_LENGTH, SLOTS_IN_FRAGMENT};

// The bytes of one slot. Its callers know that the number is below three: a type for it would be no
// plainer. A fragment and a number of a slot stay two parameters, here and below: callers have them apart.
fn slot_in(fragment: &Fragment, slot: usize) -> &Slot
    requires { slot < slots_in_fragment }
    ensures { result.now ≡ slot_in fragment.now slot }
{
    let at = HEAD_LENGTH + slot * SLOT_LENGTH;
    let (bytes, _) = fragment[at..].split_first_chunk().unwrap();
    bytes
}

// The layout that a fragment says it has, if it is one of ours.
pub fn layout_of(fragment: &Fragment) -> Option<Layout>
    ensures { result ≡ layout_in (slice_index fragment.now 0) }
{
    Layout::try_from(fragment[0]).ok()
}

// The deltas of the three slots of the named fragment, none for an empty slot, or the first cause
// why these bytes are not that fragment.
pub fn read(
    fragment: &Fragment,
    name: FragmentName,
) -> Result<[Option<Delta>; SLOTS_IN_FRAGMENT], Cause>
    ensures answer { result ≡ deltas_answer (read_fragment name.stripe.row.servers (number_of name.stripe.key) name.index fragment.now) }
    ensures reads_back { ReadsBack }
    ensures one_form { OneForm }
    ensures older { OlderSlots }
    ensures other_layouts { OtherLayouts }
{
    let layout = read_head(&fragment[0..HEAD_LENGTH], name)?;
    read_slots(fragment, layout)
}

// The deltas of the slots of a fragment of this layout, whatever its head is, or the first cause in
// them.
fn read_slots(
    fragment: &Fragment,
    layout: Layout,
) -> Result<[Option<Delta>; SLOTS_IN_FRAGMENT], Cause>
    ensures { result ≡ deltas_answer (slots_under fragment.now (Ok layout)) }
{
    // Tried `array::try_from_fn`: its clauses say nothing of what the closure captures.
    let mut deltas = [None; SLOTS_IN_FRAGMENT];
    for (slot, delta) in deltas.iter_mut().enumerate() {
        *delta = read_slot(slot_in(fragment, slot), layout)?;
    }
    Ok(deltas)
}

// The delta of one slot of a fragment of this layout, whatever its head is: none for an empty slot
// or one that no fragment has, or that it breaks a rule.
pub fn read_delta(fragment: &Fragment, layout: Layout, slot: usize) -> Result<Option<Delta>, Cause>
    ensures { result ≡ delta_answer (read_slot layout (slot_in fragment.now slot)) }
{
    if slot >= SLOTS_IN_FRAGMENT {
        return Ok(None);
    }
    read_slot(slot_in(fragment, slot), layout)
}

// The block's bytes in a slot of the fragment, if it has the slot.
pub fn block_in(fragment: &Fragment, slot: usize) -> Option<&Block>
    ensures { MatchOption result (slots_in_fragment ≤ slot) (λ b. (slot < slots_in_fragment) × (b.now ≡ drop delta_length (slot_in fragment.now slot))) }
{
    if slot >= SLOTS_IN_FRAGMENT {
        return None;
    }
    let (_, block) = slot_in(fragment, slot).split_at(DELTA_LENGTH);
    block.as_array()
}

// Gives the fragment this name. Its slots stay as they are.
pub fn set_head(fragment: &mut Fragment, name: FragmentName)
    ensures { fragment.new ≡ head_bytes name.stripe.row.servers (number_of name.stripe.key) name.index ++ drop head_length fragment.old }
{
    write_head(&mut fragment[0..HEAD_LENGTH], name);
}

// Fills a slot in layout 2; no other byte of the fragment changes. Where the fragment has no such
// slot, nothing does.
pub fn fill_slot(
    fragment: &mut Fragment,
    slot: usize,
    delta: &Delta,
    block: &Block,
) -> Result<(), NoSuchSlot>
    ensures known { is_ok result ≡ nat_lt slot slots_in_fragment }
    ensures after { fragment.new ≡ (if nat_lt slot slots_in_fragment then put_slot slot (filled_with delta.now block.now) fragment.old else fragment.old) }
    ensures only_the_slot { OnlyTheSlot }
{
    if slot >= SLOTS_IN_FRAGMENT {
        return Err(NoSuchSlot);
    }
    let at = HEAD_LENGTH + slot * SLOT_LENGTH;
    write_slot(&mut fragment[at..at + SLOT_LENGTH], delta, block);
    Ok(())
}
