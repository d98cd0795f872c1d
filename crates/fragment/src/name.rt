// Which data fragment: the one of this index in a stripe, placed on its row.
use geometry::placement::PlacedStripe;

#[derive(Clone, Copy, PartialEq, Eq, Debug)]
pub struct FragmentName {
    pub stripe: PlacedStripe,
    pub index: u8,
}
