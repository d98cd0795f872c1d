// An ordered table over lent memory: elements in the order of their numbers, each number once.
ghost use Rattle.std.specs.Prelude.{◌≡◌, ◌≤◌, [], length};
ghost use Rattle.std.specs.Option.{option_map};
ghost use Rattle.std.specs.List.{slice_get};
ghost use Rattle.ordered.specs.Lists.{list_items, SameMemory};
ghost use Rattle.ordered.specs.Maps.{Rises};

use crate::keyed::Keyed;
use crate::lent::LentList;

mod calls;
mod search;

#[derive(Drop)]
pub struct OrderedTable<'a, E: Keyed> {
    list: LentList<'a, E>,
    pub ghost rises: { Rises E.number (list_items list) },
}

impl<'a, E: Keyed> OrderedTable<'a, E> {
    ghost use Rattle.ordered.specs.Tables.{items, room};

    // An empty table over the memory, whatever it holds.
    pub fn new(slots: &'a mut [E]) -> OrderedTable<'a, E>
        ensures items { items result ≡ [] }
        ensures memory { result.list.slots.now ≡ slots.old }
        ensures lent { result.list.slots.ghost_name ≡ slots.entry.ghost_name }
    {
        OrderedTable {
            list: LentList::new(slots),
        }
    }

    // This and the next four are the list's: a `Deref` would give callers the list's contracts.

    // How many elements it holds.
    pub fn count(&self) -> usize
        ensures items { result ≡ length (items self.now) }
        ensures fits { result ≤ room self.now }
    {
        self.list.count()
    }

    // How many it can hold.
    pub fn room(&self) -> usize
        ensures { result ≡ room self.now }
    {
        self.list.room()
    }

    // The elements in their order.
    pub fn elements(&self) -> &[E]
        ensures { result.now ≡ items self.now }
    {
        self.list.elements()
    }

    // The element at a place in the order.
    pub fn at(&self, index: usize) -> Option<&E>
        ensures { option_map (λ x. x.now) result ≡ slice_get (items self.now) index }
    {
        self.list.at(index)
    }

    pub fn clear(&mut self)
        ensures items { items self.new ≡ [] }
        ensures memory { SameMemory self.old.list self.new.list }
    {
        self.list.clear();
    }
}
