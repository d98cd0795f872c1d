// Reading stripes back, with one server missing if need be.
ghost use Rattle.std.specs.Prelude.{◌≡◌, IfOk, OnOk};
ghost use Rattle.geometry.specs.Keys.{number_of};
ghost use Rattle.row.specs.Rows.{StaysCoherent};
ghost use Rattle.workshop.specs.declared.tyre.TyreId.{TyreId};
ghost use Rattle.workshop.specs.Readings.{noted_for};
ghost use Rattle.row_packing.specs.Readings.{stripe_readings, readings_on, newest_among, Appended};

use crate::fault::PackFault;
use crate::fetch::get_fragment;
use crate::log::Log;
use crate::note::note_fragment;
use fragment::name::FragmentName;
use geometry::placement::PlacedStripe;
use row::row::ServerRow;
use std::alloc::Global;
use workshop::newest::Newest;

// Notes every reading of one stripe.
fn note_stripe<R: ServerRow>(
    newest: &mut Newest,
    boxes: &mut R,
    missing: Option<u8>,
    stripe: PlacedStripe,
) -> Result<(), PackFault>
    ensures noted { OnOk result (Appended newest.old newest.new (stripe_readings (R.ServerRow.meanings boxes.old) stripe.row.servers missing (number_of stripe.key))) }
    ensures after { R.ServerRow.meanings boxes.new ≡ R.ServerRow.meanings boxes.old }
    ensures coherent { StaysCoherent (R.ServerRow.coherent boxes.old) (R.ServerRow.coherent boxes.new) }
{
    for index in 0..stripe.row.data_fragments() {
        let fragment = get_fragment(boxes, missing, stripe, stripe.data_server(index))?;
        note_fragment(newest, &fragment, FragmentName { stripe, index })?;
    }
    Ok(())
}

// The newest reading of each tyre in the log. The fragments of the missing server are put together
// from the others.
pub fn read_back<R: ServerRow>(
    heap: Global,
    boxes: &mut R,
    missing: Option<u8>,
    log: Log,
) -> Result<Newest, PackFault>
    ensures newest { IfOk result (λ newest. (q : TyreId) → noted_for newest q ≡ newest_among (readings_on (R.ServerRow.meanings boxes.old) log.row.servers missing log.client log.stripes) q) }
    ensures after { R.ServerRow.meanings boxes.new ≡ R.ServerRow.meanings boxes.old }
    ensures coherent { StaysCoherent (R.ServerRow.coherent boxes.old) (R.ServerRow.coherent boxes.new) }
{
    let mut newest = Newest::new(heap);
    for number in 0..log.stripes {
        let stripe = log.stripe(number)?;
        note_stripe(&mut newest, boxes, missing, stripe)?;
    }
    Ok(newest)
}
