// Finding places in a table.
ghost use Rattle.std.specs.Prelude.{◌≡◌, ◌<◌, ◌≤◌, length, MatchResult};
ghost use Rattle.ordered.specs.Places.{place, sought};
ghost use Rattle.ordered.specs.Tables.{items};

use crate::keyed::Keyed;
use crate::table::OrderedTable;

impl<'a, E: Keyed> OrderedTable<'a, E> {
    // The first place whose number is not below `key`.
    pub(super) fn lower(&self, key: u64) -> usize
        ensures within { result ≤ length (items self.now) }
        ensures place { result ≡ place E.number (items self.now) key }
    {
        self.list
            .elements()
            .partition_point(|e| e.key_number() < key)
    }

    // The place of the element that has the number, or else the place where it would go.
    pub(super) fn seek(&self, key: u64) -> Result<usize, usize>
        ensures within { MatchResult result (λ i. i < length (items self.now)) (λ i. i ≤ length (items self.now)) }
        ensures place { result ≡ sought E.number (items self.now) key }
    {
        self.list
            .elements()
            .binary_search_by_key(&key, E::key_number)
    }
}
