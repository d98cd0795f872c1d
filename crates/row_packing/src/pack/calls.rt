// Adding readings, and storing the stripe that they fill.
ghost use Rattle.std.specs.Prelude.{◌≡◌, ◌+◌, ◌&&◌, [], ◌∷◌, length, if◌then◌else◌, MatchResult, is_ok, nat_lt};
ghost use Rattle.geometry.specs.Sizes.{slot_count};
ghost use Rattle.row.specs.Rows.{StaysCoherent};
ghost use Rattle.rack.specs.Opening.{with_slots};
ghost use Rattle.open_stripe.specs.Means.{open_of};
ghost use Rattle.row_packing.specs.Deltas.{delta_for};
ghost use Rattle.row_packing.specs.Packers.{begun_at, slot_for, AfterSeal, is_full, MadeRoom, Added};

use crate::fault::PackFault;
use crate::pack::Packer;
use crate::store::store_stripe;
use fragment::delta::{Delta, Kind};
use geometry::row::RowLength;
use open_stripe::open::OpenStripe;
use row::row::ServerRow;
use stripe::image::StripeImage;
use workshop::pressure::block_of;
use workshop::reading::Reading;

impl Packer {
    pub fn new(row: RowLength) -> Packer
        ensures row { result.row ≡ row }
        ensures current { open_of result.current ≡ begun_at 0 }
        ensures stripes { result.stripes ≡ 0 }
        ensures version { result.version ≡ 0 }
    {
        Packer {
            row,
            current: OpenStripe::new(0),
            stripes: 0,
            version: 0,
        }
    }

    // Stores the stripe under the next stripe number, and begins another, under the last version. An
    // empty stripe is not stored. A refusal leaves the packer.
    pub fn seal<R: ServerRow>(&mut self, boxes: &mut R) -> Result<(), PackFault>
        ensures sealed { MatchResult result (λ _. AfterSeal (open_of self.old.current).filled self.old self.new (R.ServerRow.meanings boxes.old) (R.ServerRow.meanings boxes.new)) (λ _. self.new ≡ self.old) }
        ensures coherent { StaysCoherent (R.ServerRow.coherent boxes.old) (R.ServerRow.coherent boxes.new) }
    {
        if self.current.buffer().filled() == 0 {
            return Ok(());
        }
        let stripe = self.log().stripe(self.stripes)?;
        let image = StripeImage::new(self.current.buffer(), stripe);
        store_stripe(boxes, &image)?;
        self.stripes += 1;
        self.current = OpenStripe::new(self.version);
        Ok(())
    }

    // Fills the next slot with the reading. A refusal changes nothing.
    fn put(&mut self, reading: &Reading, version: u32) -> Result<(), PackFault>
        ensures room { is_ok result ≡ (nat_lt 0 version && nat_lt (length (open_of self.old.current).filled) (slot_count self.old.row.servers)) }
        ensures current { open_of self.new.current ≡ (if is_ok result then with_slots (open_of self.old.current) (slot_for reading.now version ∷ []) else open_of self.old.current) }
        ensures version { self.new.version ≡ (if is_ok result then version else self.old.version) }
        ensures stripes { self.new.stripes ≡ self.old.stripes }
        ensures row { self.new.row ≡ self.old.row }
    {
        let delta = delta_for(reading, version);
        self.current.fill(self.row, delta, &block_of(reading.kpa))?;
        self.version = version;
        Ok(())
    }

    fn is_full(&self) -> bool
        ensures { result ≡ is_full self.now }
    {
        self.row.slots() <= self.current.buffer().filled()
    }

    // Stores the stripe where it is full. A refusal leaves the packer.
    fn make_room<R: ServerRow>(&mut self, boxes: &mut R) -> Result<(), PackFault>
        ensures room { MatchResult result (λ _. MadeRoom (is_full self.old) self.old self.new (R.ServerRow.meanings boxes.old) (R.ServerRow.meanings boxes.new)) (λ _. self.new ≡ self.old) }
        ensures coherent { StaysCoherent (R.ServerRow.coherent boxes.old) (R.ServerRow.coherent boxes.new) }
    {
        if self.is_full() {
            self.seal(boxes)?;
        }
        Ok(())
    }

    // Adds a reading with the next version, and stores the stripe first where it is full. Versions
    // go on from reading to reading; one that is refused takes none.
    pub fn add<R: ServerRow>(&mut self, boxes: &mut R, reading: &Reading) -> Result<(), PackFault>
        ensures added { MatchResult result (λ _. Added self.old self.new (R.ServerRow.meanings boxes.old) (R.ServerRow.meanings boxes.new) (slot_for reading.now (self.old.version + 1))) (λ _. self.new.version ≡ self.old.version) }
        ensures coherent { StaysCoherent (R.ServerRow.coherent boxes.old) (R.ServerRow.coherent boxes.new) }
    {
        let version = self.version.checked_add(1).ok_or(PackFault::Spent)?;
        self.make_room(boxes)?;
        self.put(reading, version)
    }
}

// A reading as a write: the truck is the file, the tyre the block.
fn delta_for(reading: &Reading, version: u32) -> Delta
    ensures { result ≡ delta_for reading.now version }
{
    Delta {
        kind: Kind::Write,
        file: reading.truck,
        block: reading.tyre,
        version,
        moves: 0,
    }
}
