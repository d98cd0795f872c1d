// The shelf serves fragments.
ghost use Rattle.std.specs.Prelude.{◌≡◌, ◌-◌, ◌^◌, min, [], length};
ghost use Rattle.shelf.specs.Shelves.{shelf_meaning};
ghost use Rattle.shelf.specs.Sound.{shelf_sound};

use crate::shelf::Shelf;
use geometry::key::Key;
use geometry::sizes::Fragment;
use ordered::fault::MapFault;
use ordered::table::OrderedTable;
use server::fragment_server::FragmentServer;
use server::stored::StoredFragment;

impl<'a> Shelf<'a> {
    // An empty shelf with as many places as the memory has, at most 4,294,967,295. What they hold
    // before does not matter.
    pub fn new(places: &'a mut [StoredFragment]) -> Shelf<'a>
        ensures places { (shelf_meaning result).places ≡ min (length places.old) (2 ^ 32 - 1) }
        ensures held { (shelf_meaning result).held ≡ [] }
    {
        let most = places.len().min(u32::MAX as usize);
        Shelf {
            table: OrderedTable::new(&mut places[0..most]),
        }
    }
}

#[tactic(auto, using(crate::proofs::Seen::seen))]
impl<'a> FragmentServer for Shelf<'a> {
    ghost meaning = { shelf_meaning };

    ghost sound = { shelf_sound };

    ghost coherent = { λ _. Unit {0} };

    fn store(&mut self, key: Key, bytes: &Fragment) -> Result<(), MapFault> {
        self.table.insert(StoredFragment::new(key, bytes))
    }

    fn fetch(&mut self, key: Key, out: &mut Fragment) -> Result<(), MapFault> {
        let stored = self.table.get(u64::from(key)).ok_or(MapFault::Absent)?;
        *out = stored.bytes;
        Ok(())
    }

    fn delete(&mut self, key: Key) -> Result<(), MapFault> {
        self.table.remove(u64::from(key))
    }

    fn wipe(&mut self) {
        self.table.clear();
    }

    fn holds(&mut self, key: Key) -> bool {
        self.table.get(u64::from(key)).is_some()
    }

    fn from(&mut self, key: Key) -> Option<Key> {
        self.table.least(u64::from(key)).map(|stored| stored.key)
    }

    fn capacity(&mut self) -> u32 {
        self.table.room() as u32
    }

    fn free(&mut self) -> u32 {
        (self.table.room() - self.table.count()) as u32
    }
}
