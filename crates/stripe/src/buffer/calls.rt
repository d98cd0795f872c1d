// Filling a stripe.
ghost use Rattle.std.specs.Prelude.{◌≡◌, ◌+◌, ◌<◌, ◌&&◌, [], ◌∷◌, ◌++◌, length, if◌then◌else◌, is_ok, IfSome, IfErr, ◌==◌, nat_lt};
ghost use Rattle.geometry.specs.Keys.{number_of};
ghost use Rattle.geometry.specs.Sizes.{slot_count};
ghost use Rattle.fragment.specs.Fragments.{read_fragment};
ghost use Rattle.fragment.specs.Slots.{filled_with};
ghost use Rattle.stripe.specs.Contents.{data_bytes, slots_of};
ghost use Rattle.stripe.specs.Buffers.{with_slot};
ghost use Rattle.stripe.specs.Means.{slots_in};

use crate::buffer::StripeBuffer;
use crate::fault::FillFault;
use crate::slots::SlotBytes;
use fragment::codec::set_head;
use fragment::delta::Delta;
use fragment::name::FragmentName;
use geometry::placement::PlacedStripe;
use geometry::row::RowLength;
use geometry::sizes::{Block, FRAGMENT_LENGTH, Fragment, MOST_DATA, SLOTS_IN_FRAGMENT};

impl Default for StripeBuffer {
    ghost is_default = { λ buffer. slots_in buffer ≡ [] };

    fn default() -> StripeBuffer {
        StripeBuffer::new()
    }
}

impl StripeBuffer {
    // A stripe with no slot filled.
    pub fn new() -> StripeBuffer
        ensures { slots_in result ≡ [] }
    {
        let slots = SlotBytes {
            fragments: [[0; FRAGMENT_LENGTH]; MOST_DATA],
        };
        StripeBuffer { filled: 0, slots }
    }

    // Fills the next slot: by fragment, then by slot; no byte of another slot changes. It is full
    // where it has as many slots as a stripe on this row. A refusal changes nothing.
    pub fn fill(&mut self, row: RowLength, delta: Delta, block: &Block) -> Result<(), FillFault>
        ensures room { is_ok result ≡ (nat_lt 0 delta.version && nat_lt (length (slots_in self.old)) (slot_count row.servers)) }
        ensures fault { IfErr result (λ f. f ≡ (if delta.version == 0 then FillFault.NoVersion else FillFault.Full)) }
        ensures slots { slots_in self.new ≡ (if is_ok result then slots_in self.old ++ filled_with delta block.now ∷ [] else slots_in self.old) }
        ensures bytes { self.new.slots.fragments ≡ (if is_ok result then with_slot self.old.slots.fragments self.old.filled (filled_with delta block.now) else self.old.slots.fragments) }
    {
        if delta.version == 0 {
            return Err(FillFault::NoVersion);
        }
        let next = self.filled;
        if next >= row.slots() {
            return Err(FillFault::Full);
        }
        self.slots.put(
            next / SLOTS_IN_FRAGMENT,
            next % SLOTS_IN_FRAGMENT,
            &delta,
            block,
        );
        self.filled = next + 1;
        Ok(())
    }

    // Data fragment `index` of this stripe, if its row has it; it reads back as the slots that it
    // holds. Slots past those of the row are in none.
    pub fn data_fragment(&self, stripe: PlacedStripe, index: u8) -> Option<Fragment>
        ensures bytes { result ≡ (if nat_lt (index + 1) stripe.row.servers then Some (data_bytes stripe.row.servers (number_of stripe.key) (slots_in self.now) index) else None) }
        ensures reads { IfSome result (λ f. read_fragment stripe.row.servers (number_of stripe.key) index f ≡ Ok (slots_of (slots_in self.now) index)) }
    {
        if index >= stripe.row.data_fragments() {
            return None;
        }
        let mut fragment = [0; FRAGMENT_LENGTH];
        self.write_fragment(stripe, index, &mut fragment);
        Some(fragment)
    }

    // Writes that fragment where it is to stand: one that is handed on by value is copied again.
    pub(crate) fn write_fragment(&self, stripe: PlacedStripe, index: u8, out: &mut Fragment)
        requires { index + 1 < stripe.row.servers }
        ensures { out.new ≡ data_bytes stripe.row.servers (number_of stripe.key) (slots_in self.now) index }
    {
        *out = self.slots.fragments[index as usize];
        set_head(out, FragmentName { stripe, index });
    }
}
