// A list of any elements at the front of lent memory.
// No heap: the memory is handed in, and a length beside it says how much of it is filled.
ghost use Rattle.std.specs.Prelude.{◌≡◌, ◌≤◌, [], length};
ghost use Rattle.std.specs.Option.{option_map};
ghost use Rattle.std.specs.List.{slice_get};
ghost use Rattle.ordered.specs.Lists.{list_items, list_room, SameMemory};

mod edits;

#[derive(Drop)]
pub struct LentList<'a, E> {
    slots: &'a mut [E],
    len: usize,
}

impl<'a, E> LentList<'a, E> {
    // An empty list over the memory, whatever it holds.
    pub fn new(slots: &'a mut [E]) -> LentList<'a, E>
        ensures items { list_items result ≡ [] }
        ensures memory { result.slots.now ≡ slots.old }
        ensures lent { result.slots.ghost_name ≡ slots.entry.ghost_name }
    {
        LentList { slots, len: 0 }
    }

    // Whatever the length says, the list reaches no further than the memory.
    pub(crate) fn elements(&self) -> &[E]
        ensures items { result.now ≡ list_items self.now }
        ensures fits { length result.now ≤ list_room self.now }
    {
        &self.slots[..self.len.min(self.slots.len())]
    }

    // How many elements it holds.
    pub fn count(&self) -> usize
        ensures items { result ≡ length (list_items self.now) }
        ensures fits { result ≤ list_room self.now }
    {
        self.elements().len()
    }

    // How many it can hold.
    pub fn room(&self) -> usize
        ensures { result ≡ list_room self.now }
    {
        self.slots.len()
    }

    pub fn at(&self, index: usize) -> Option<&E>
        ensures { option_map (λ x. x.now) result ≡ slice_get (list_items self.now) index }
    {
        self.elements().get(index)
    }

    pub fn clear(&mut self)
        ensures items { list_items self.new ≡ [] }
        ensures memory { SameMemory self.old self.new }
    {
        self.len = 0;
    }
}
