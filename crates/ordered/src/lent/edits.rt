// Changing a list at a place.
ghost use Rattle.std.specs.Prelude.{◌≡◌, ◌<◌, ◌≤◌, length, slice_set};
ghost use Rattle.std.specs.List.{insert, remove};
ghost use Rattle.ordered.specs.Lists.{list_items, list_room, SameMemory};

use crate::lent::LentList;

impl<'a, E> LentList<'a, E> {
    pub(crate) fn insert_at(&mut self, at: usize, e: E)
    where
        E: Drop,
        requires place { at ≤ length (list_items self.old) }
        requires free { length (list_items self.old) < list_room self.old }
        ensures items { list_items self.new ≡ insert (list_items self.old) at e }
        ensures memory { SameMemory self.old self.new }
    {
        let count = self.count();
        self.slots[count] = e;
        self.slots[at..count + 1].rotate_right(1);
        self.len = count + 1;
    }

    pub(crate) fn set_at(&mut self, at: usize, e: E)
    where
        E: Drop,
        requires { at < length (list_items self.old) }
        ensures items { list_items self.new ≡ slice_set (list_items self.old) at e }
        ensures memory { SameMemory self.old self.new }
    {
        self.slots[at] = e;
    }

    // The element that is taken out stays in the memory, behind the others.
    pub(crate) fn remove_at(&mut self, at: usize)
        requires { at < length (list_items self.old) }
        ensures items { list_items self.new ≡ remove (list_items self.old) at }
        ensures memory { SameMemory self.old self.new }
    {
        let count = self.count();
        self.slots[at..count].rotate_left(1);
        self.len = count - 1;
    }
}
