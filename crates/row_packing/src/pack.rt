// Packing readings into stripes.
ghost use Rattle.std.specs.Prelude.{◌≤◌, length};
ghost use Rattle.geometry.specs.Sizes.{slot_count};
ghost use Rattle.open_stripe.specs.Means.{open_of};

use geometry::row::RowLength;
use open_stripe::open::OpenStripe;

mod calls;
mod looks;

// The open stripe, and how many stripes and readings came before.
#[derive(Drop)]
pub struct Packer {
    row: RowLength,
    current: OpenStripe,
    stripes: u64,
    version: u32,
    ghost fits: { length (open_of current).filled ≤ slot_count row.servers },
}
