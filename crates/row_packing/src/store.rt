// Storing a finished stripe, each server's fragment on it.
ghost use Rattle.std.specs.Prelude.{◌≡◌, Ok};
ghost use Rattle.row.specs.Rows.{StaysCoherent};
ghost use Rattle.row.specs.Changes.{applied};
ghost use Rattle.row_packing.specs.Stores.{stripe_stores, stores_answer, stores_after};

use ordered::fault::MapFault;
use row::row::ServerRow;
use stripe::image::StripeImage;

// Stores the image's fragment on each server of its row, in order, and stops at the first that
// refuses.
pub fn store_stripe<R: ServerRow>(boxes: &mut R, image: &StripeImage) -> Result<(), MapFault>
    ensures answer { result ≡ stores_answer (stripe_stores image.now) (R.ServerRow.meanings boxes.old) }
    ensures after { R.ServerRow.meanings boxes.new ≡ stores_after (stripe_stores image.now) (R.ServerRow.meanings boxes.old) }
    ensures whole { result ≡ Ok tt → R.ServerRow.meanings boxes.new ≡ applied (stripe_stores image.now) (R.ServerRow.meanings boxes.old) }
    ensures coherent { StaysCoherent (R.ServerRow.coherent boxes.old) (R.ServerRow.coherent boxes.new) }
{
    for server in 0..image.row().servers() {
        let fragment = image.on(server).unwrap();
        boxes.store(server as usize, image.key(), fragment)?;
    }
    Ok(())
}
