// The calls that know elements by their numbers.
ghost use Rattle.std.specs.Prelude.{◌≡◌};
ghost use Rattle.std.specs.Option.{option_map};
ghost use Rattle.ordered.specs.Lists.{SameMemory};
ghost use Rattle.ordered.specs.Maps.{find, least, without};
ghost use Rattle.ordered.specs.Tables.{items, room, insert_answer, insert_after, replace_after, held_answer};

use crate::fault::MapFault;
use crate::keyed::Keyed;
use crate::table::OrderedTable;

impl<'a, E: Keyed> OrderedTable<'a, E> {
    // The element that has the number.
    #[tactic(auto, using(crate::proofs::Places::nth_sought))]
    pub fn get(&self, key: u64) -> Option<&E>
        ensures { option_map (λ x. x.now) result ≡ find E.number (items self.now) key }
    {
        self.at(self.seek(key).ok()?)
    }

    // The element of the least number that is not below `from`.
    #[tactic(auto, using(crate::proofs::Places::least_place))]
    pub fn least(&self, from: u64) -> Option<&E>
        ensures { option_map (λ x. x.now) result ≡ least E.number (items self.now) from }
    {
        self.at(self.lower(from))
    }

    // Takes in an element with a new number.
    #[tactic(auto, using(crate::proofs::Places::inserted))]
    pub fn insert(&mut self, e: E) -> Result<(), MapFault>
    where
        E: Drop,
        ensures answer { result ≡ insert_answer E.number (items self.old) (room self.old) e }
        ensures items { items self.new ≡ insert_after E.number (items self.old) (room self.old) e }
        ensures memory { SameMemory self.old.list self.new.list }
    {
        let Err(at) = self.seek(e.key_number()) else {
            return Err(MapFault::Held);
        };
        if self.count() == self.room() {
            return Err(MapFault::Full);
        }
        self.list.insert_at(at, e);
        Ok(())
    }

    // Puts an element in the place of the one that has its number.
    #[tactic(auto, using(crate::proofs::Places::replaced))]
    pub fn replace(&mut self, e: E) -> Result<(), MapFault>
    where
        E: Drop,
        ensures answer { result ≡ held_answer E.number (items self.old) (E.number e) }
        ensures items { items self.new ≡ replace_after E.number (items self.old) e }
        ensures memory { SameMemory self.old.list self.new.list }
    {
        let Ok(at) = self.seek(e.key_number()) else {
            return Err(MapFault::Absent);
        };
        self.list.set_at(at, e);
        Ok(())
    }

    // Lets go of the element that has the number.
    #[tactic(auto, using(crate::proofs::Places::removed, crate::proofs::Maps::without_absent))]
    pub fn remove(&mut self, key: u64) -> Result<(), MapFault>
        ensures answer { result ≡ held_answer E.number (items self.old) key }
        ensures items { items self.new ≡ without E.number (items self.old) key }
        ensures memory { SameMemory self.old.list self.new.list }
    {
        let Ok(at) = self.seek(key) else {
            return Err(MapFault::Absent);
        };
        self.list.remove_at(at);
        Ok(())
    }
}
