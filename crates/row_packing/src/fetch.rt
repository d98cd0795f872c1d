// Getting a fragment, with one box missing if need be. A box that lacks it refuses, as its server does.
ghost use Rattle.std.specs.Prelude.{◌≡◌, Ok};
ghost use Rattle.std.specs.Result.{result_and};
ghost use Rattle.geometry.specs.Keys.{number_of};
ghost use Rattle.row.specs.Rows.{StaysCoherent};
ghost use Rattle.row_packing.specs.Fetches.{others, fetches_answer, fragment_answer, put_together, fragment_in};

use geometry::placement::PlacedStripe;
use geometry::sizes::Fragment;
use ordered::fault::MapFault;
use row::row::ServerRow;
use row_fragments::fetch;
use row_fragments::in_use::InUse;

// The stripe's fragment that belongs on this server: as it is there, or put together from all the
// others where this is the missing server.
// `missing`, a server or a log stand beside `boxes`, here and in the other modules: a struct that held
// the loan would owe which row it gives back.
pub fn get_fragment<R: ServerRow>(
    boxes: &mut R,
    missing: Option<u8>,
    stripe: PlacedStripe,
    server: u8,
) -> Result<Fragment, MapFault>
    ensures fragment { let was = R.ServerRow.meanings boxes.old in let k = number_of stripe.key in let n = stripe.row.servers in result ≡ result_and (fragment_answer was n missing k server) (Ok (fragment_in was n missing k server)) }
    ensures after { R.ServerRow.meanings boxes.new ≡ R.ServerRow.meanings boxes.old }
    ensures coherent { StaysCoherent (R.ServerRow.coherent boxes.old) (R.ServerRow.coherent boxes.new) }
{
    let in_use = InUse {
        row: stripe.row,
        out: missing,
    };
    match fetch::get_fragment(boxes, in_use, stripe.key, server) {
        Ok(fragment) => Ok(fragment),
        Err(_) => Err(MapFault::Absent),
    }
}

// The stripe's fragment that belongs on this server, from all the others: their exclusive or, or the
// first refusal where one of them refuses.
pub(crate) fn put_together<R: ServerRow>(
    boxes: &mut R,
    stripe: PlacedStripe,
    server: u8,
) -> Result<Fragment, MapFault>
    ensures fragment { let was = R.ServerRow.meanings boxes.old in let k = number_of stripe.key in let ss = others stripe.row.servers server in result ≡ result_and (fetches_answer was k ss) (Ok (put_together was k ss)) }
    ensures after { R.ServerRow.meanings boxes.new ≡ R.ServerRow.meanings boxes.old }
    ensures coherent { StaysCoherent (R.ServerRow.coherent boxes.old) (R.ServerRow.coherent boxes.new) }
{
    get_fragment(boxes, Some(server), stripe, server)
}
