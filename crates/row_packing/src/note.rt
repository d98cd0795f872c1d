// Noting the readings in a fragment.
ghost use Rattle.std.specs.Prelude.{◌≡◌, ◌<◌, drop, OnOk};
ghost use Rattle.geometry.specs.Keys.{number_of};
ghost use Rattle.geometry.specs.Sizes.{delta_length, slots_in_fragment};
ghost use Rattle.fragment.specs.Fragments.{slot_in, read_fragment};
ghost use Rattle.row_packing.specs.Readings.{entry_in, entries_in, Appended};

use crate::fault::PackFault;
use fragment::codec::{block_in, read};
use fragment::delta::Delta;
use fragment::name::FragmentName;
use geometry::sizes::{Block, Fragment};
use workshop::newest::Newest;
use workshop::pressure::kpa_in;
use workshop::tyre::TyreId;

// The block in a slot. Its number is below three, here and below: a type for it would be no plainer.
fn block_at(fragment: &Fragment, slot: usize) -> &Block
    requires { slot < slots_in_fragment }
    ensures { result.now ≡ drop delta_length (slot_in fragment.now slot) }
{
    block_in(fragment, slot).unwrap()
}

// Notes the reading in one slot, if it is filled.
fn note_slot(
    newest: &mut Newest,
    fragment: &Fragment,
    slot: usize,
    filled: Option<Delta>,
) -> Result<(), PackFault>
    requires { slot < slots_in_fragment }
    ensures { OnOk result (Appended newest.old newest.new (entry_in filled (drop delta_length (slot_in fragment.now slot)))) }
{
    let Some(delta) = filled else {
        return Ok(());
    };
    let tyre = TyreId {
        truck: delta.file,
        tyre: delta.block,
    };
    let kpa = kpa_in(block_at(fragment, slot));
    newest.note(tyre, delta.version, kpa)?;
    Ok(())
}

// Notes every reading of the named fragment.
pub(crate) fn note_fragment(
    newest: &mut Newest,
    fragment: &Fragment,
    name: FragmentName,
) -> Result<(), PackFault>
    ensures { OnOk result (Appended newest.old newest.new (entries_in (read_fragment name.stripe.row.servers (number_of name.stripe.key) name.index fragment.now))) }
{
    let slots = read(fragment, name)?;
    for (slot, filled) in slots.iter().enumerate() {
        note_slot(newest, fragment, slot, *filled)?;
    }
    Ok(())
}
