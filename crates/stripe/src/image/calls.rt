// Making a finished stripe, and what it has for a server.
ghost use Rattle.std.specs.Prelude.{◌≡◌, ℕ, ◌<◌, ◌≤◌, MatchOption};
ghost use Rattle.geometry.specs.Keys.{number_of};
ghost use Rattle.stripe.specs.Contents.{data_fragments};
ghost use Rattle.stripe.specs.Means.{slots_in, image_on};
ghost use Rattle.stripe.specs.Rows.{fragment_on, MissingIsTheOthers};

use crate::buffer::StripeBuffer;
use crate::image::StripeImage;
use geometry::key::Key;
use geometry::part::Part;
use geometry::placement::PlacedStripe;
use geometry::row::RowLength;
use geometry::sizes::{FRAGMENT_LENGTH, Fragment, MOST_DATA};
use parity::xor_all;

impl StripeImage {
    // This stripe with the buffer's slots. Those past the slots of its row are not in it.
    pub fn new(buffer: &StripeBuffer, stripe: PlacedStripe) -> StripeImage
        ensures row { result.stripe.row ≡ stripe.row }
        ensures key { result.stripe.key ≡ stripe.key }
        ensures each { (s : ℕ) → s < stripe.row.servers → image_on result s ≡ fragment_on stripe.row.servers (number_of stripe.key) (data_fragments stripe.row.servers (number_of stripe.key) (slots_in buffer.now)) s }
        ensures missing { MissingIsTheOthers }
    {
        // Tried `array::from_fn`: that the index fits a byte is not known in the closure.
        let fragments = stripe.row.data_fragments() as usize;
        let mut data = [[0; FRAGMENT_LENGTH]; MOST_DATA];
        for (index, fragment) in data.iter_mut().enumerate() {
            if index < fragments {
                buffer.write_fragment(stripe, index as u8, fragment);
            }
        }
        let mut parity = [0; FRAGMENT_LENGTH];
        xor_all(&data[..fragments], &mut parity);
        StripeImage {
            stripe,
            parity,
            data,
        }
    }

    // What this server is to hold of the stripe, if the row has the server.
    pub fn on(&self, server: u8) -> Option<&Fragment>
        ensures { MatchOption result (self.now.stripe.row.servers ≤ server) (λ f. (server < self.now.stripe.row.servers) × (f.now ≡ image_on self.now server)) }
    {
        match self.stripe.part_on(server)? {
            Part::Parity => Some(&self.parity),
            Part::Data(index) => Some(&self.data[index as usize]),
        }
    }

    pub fn row(&self) -> RowLength
        ensures { result ≡ self.now.stripe.row }
    {
        self.stripe.row
    }

    pub fn key(&self) -> Key
        ensures { result ≡ self.now.stripe.key }
    {
        self.stripe.key
    }
}
