// A finished stripe: what each server of the row is to hold of it.
use geometry::placement::PlacedStripe;
use geometry::sizes::{Fragment, MOST_DATA};

mod calls;

#[derive(Drop)]
pub struct StripeImage {
    stripe: PlacedStripe,
    parity: Fragment,
    // The data fragments, and zeros past the row's last. Its memory is that of the longest row.
    data: [Fragment; MOST_DATA],
}
