// Noting stripes, and looking at those that are noted.
ghost use Rattle.std.specs.Prelude.{◌≡◌, [], ◌∷◌, ◌++◌, map, length, if◌then◌else◌, is_ok, nat_lt};
ghost use Rattle.geometry.specs.Keys.{number_of};
ghost use Rattle.rack.specs.Lists.{is_among};
ghost use Rattle.rack.specs.Gathering.{most_sources};
ghost use Rattle.open_stripe.specs.Means.{sources_of};

use crate::sources::{MOST_SOURCES, Sources, SourcesFull};
use geometry::key::Key;

impl Sources {
    // No stripe noted.
    pub fn new() -> Sources
        ensures { sources_of result ≡ [] }
    {
        // Some key stands in the places that are not used.
        let unused = Key::new(0, 0).unwrap();
        Sources {
            keys: [unused; MOST_SOURCES],
            count: 0,
        }
    }

    // Notes a stripe behind the others. A refusal changes nothing.
    pub fn note(&mut self, key: Key) -> Result<(), SourcesFull>
        ensures room { is_ok result ≡ nat_lt (length (sources_of self.old)) most_sources }
        ensures after { sources_of self.new ≡ (if is_ok result then sources_of self.old ++ number_of key ∷ [] else sources_of self.old) }
    {
        if self.count >= MOST_SOURCES {
            return Err(SourcesFull);
        }
        self.keys[self.count] = key;
        self.count += 1;
        Ok(())
    }

    // The stripes noted, in that order.
    pub fn keys(&self) -> &[Key]
        ensures { map number_of result.now ≡ sources_of self.now }
    {
        &self.keys[..self.count]
    }

    // Whether this stripe is noted.
    pub fn has(&self, key: Key) -> bool
        ensures { result ≡ is_among (sources_of self.now) (number_of key) }
    {
        self.keys().contains(&key)
    }
}
