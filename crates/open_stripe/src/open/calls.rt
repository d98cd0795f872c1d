// Beginning an open stripe, filling it and noting its sources.
ghost use Rattle.std.specs.Prelude.{◌≡◌, [], ◌∷◌, length, if◌then◌else◌, ◌&&◌, is_ok, IfErr, ◌==◌, nat_lt};
ghost use Rattle.geometry.specs.Keys.{number_of};
ghost use Rattle.geometry.specs.Sizes.{slot_count};
ghost use Rattle.fragment.specs.Slots.{filled_with};
ghost use Rattle.stripe.specs.Means.{slots_in};
ghost use Rattle.rack.specs.Opening.{with_slots};
ghost use Rattle.rack.specs.Gathering.{most_sources};
ghost use Rattle.open_stripe.specs.Means.{sources_of, open_of, with_source};

use crate::open::OpenStripe;
use crate::sources::{Sources, SourcesFull};
use fragment::delta::Delta;
use geometry::key::Key;
use geometry::row::RowLength;
use geometry::sizes::Block;
use stripe::buffer::StripeBuffer;
use stripe::fault::FillFault;

impl OpenStripe {
    // An open stripe with no slot filled, begun under this number.
    pub fn new(begun: u32) -> OpenStripe
        ensures { open_of result ≡ record { begun = begun; filled = []; sources = [] } }
    {
        OpenStripe {
            begun,
            buffer: StripeBuffer::new(),
            sources: Sources::new(),
        }
    }

    pub fn begun(&self) -> u32
        ensures { result ≡ (open_of self.now).begun }
    {
        self.begun
    }

    pub fn buffer(&self) -> &StripeBuffer
        ensures same { result.now ≡ self.now.buffer }
        ensures slots { slots_in result.now ≡ (open_of self.now).filled }
    {
        &self.buffer
    }

    pub fn sources(&self) -> &Sources
        ensures same { result.now ≡ self.now.sources }
        ensures keys { sources_of result.now ≡ (open_of self.now).sources }
    {
        &self.sources
    }

    // Fills the next slot, where a stripe on this row has one more. A refusal changes nothing.
    pub fn fill(&mut self, row: RowLength, delta: Delta, block: &Block) -> Result<(), FillFault>
        ensures room { is_ok result ≡ (nat_lt 0 delta.version && nat_lt (length (open_of self.old).filled) (slot_count row.servers)) }
        ensures fault { IfErr result (λ f. f ≡ (if delta.version == 0 then FillFault.NoVersion else FillFault.Full)) }
        ensures after { open_of self.new ≡ (if is_ok result then with_slots (open_of self.old) (filled_with delta block.now ∷ []) else open_of self.old) }
    {
        self.buffer.fill(row, delta, block)
    }

    // Notes a stripe that slots were copied from. A refusal changes nothing.
    pub fn note(&mut self, key: Key) -> Result<(), SourcesFull>
        ensures room { is_ok result ≡ nat_lt (length (open_of self.old).sources) most_sources }
        ensures after { open_of self.new ≡ (if is_ok result then with_source (open_of self.old) (number_of key) else open_of self.old) }
    {
        self.sources.note(key)
    }
}
