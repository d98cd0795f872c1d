// The newest slot of a block in an open stripe: of those of highest version, the first.
ghost use Rattle.std.specs.Prelude.{◌≡◌, IfSome, nat_eq};
ghost use Rattle.std.specs.Option.{option_map};
ghost use Rattle.stripe.specs.Contents.{slot_at};
ghost use Rattle.rack.specs.Entries.{block_number};
ghost use Rattle.open_stripe.specs.Means.{open_of};
ghost use Rattle.open_stripe.specs.Newest.{newest_in, newer_of};

use crate::open::OpenStripe;
use fragment::delta::Delta;

// A filled slot: its number in the stripe, and its delta.
#[derive(Clone, Copy, PartialEq, Eq, Debug)]
pub struct OpenSlot {
    pub slot: usize,
    pub delta: Delta,
}

// The later of two slots is newer if its version is higher.
fn newer(found: Option<OpenSlot>, later: OpenSlot) -> OpenSlot
    ensures { result ≡ newer_of found later }
{
    match found {
        Some(found) if found.delta.version >= later.delta.version => found,
        _ => later,
    }
}

fn is_of(delta: Delta, file: u16, block: u16) -> bool
    ensures { result ≡ nat_eq (block_number delta.file delta.block) (block_number file block) }
{
    delta.file == file && delta.block == block
}

impl OpenStripe {
    // The newest slot of this block, if one is filled.
    pub fn newest(&self, file: u16, block: u16) -> Option<OpenSlot>
        ensures delta { option_map (λ s. s.delta) result ≡ option_map (λ x. x.delta) (newest_in (block_number file block) (open_of self.now).filled) }
        ensures place { IfSome result (λ s. slot_at (open_of self.now).filled s.slot ≡ newest_in (block_number file block) (open_of self.now).filled) }
    {
        let mut newest = None;
        for (slot, delta) in self.buffer().deltas().iter().enumerate() {
            if let Some(delta) = *delta {
                if is_of(delta, file, block) {
                    newest = Some(newer(newest, OpenSlot { slot, delta }));
                }
            }
        }
        newest
    }
}
