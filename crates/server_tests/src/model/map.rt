// A map of at most 8 places: its entries in the order in which they were stored, with no gap between
// them, found by walking from the first on.
use crate::model::{ABSENT, Bytes, Done, FULL, HELD, Name, precedes};

pub(crate) const MOST_PLACES: usize = 8;

#[derive(Clone, Copy)]
pub(crate) struct Entry {
    pub name: Name,
    pub bytes: Bytes,
}

#[derive(Clone, Copy)]
pub(crate) struct Map {
    pub places: usize,
    pub entries: [Option<Entry>; MOST_PLACES],
}

impl Map {
    pub(crate) fn new(places: usize) -> Map {
        Map {
            places,
            entries: [None; MOST_PLACES],
        }
    }

    pub(crate) fn count(&self) -> usize {
        self.entries.iter().flatten().count()
    }

    fn find(&self, name: Name) -> Option<&Entry> {
        self.entries
            .iter()
            .flatten()
            .find(|entry| entry.name == name)
    }

    pub(crate) fn store(&mut self, name: Name, bytes: &Bytes) -> Done {
        if self.find(name).is_some() {
            return Err(HELD);
        }
        let count = self.count();
        if count >= self.places {
            return Err(FULL);
        }
        let place = self.entries.get_mut(count).ok_or(FULL)?;
        *place = Some(Entry {
            name,
            bytes: *bytes,
        });
        Ok(())
    }

    pub(crate) fn fetch(&self, name: Name, buffer: &mut Bytes) -> Done {
        let entry = self.find(name).ok_or(ABSENT)?;
        *buffer = entry.bytes;
        Ok(())
    }

    // The entries after the one that goes move down.
    pub(crate) fn delete(&mut self, name: Name) -> Done {
        let old = self.entries;
        let others = old.iter().flatten().filter(|entry| entry.name != name);
        self.entries = [None; MOST_PLACES];
        for (place, entry) in self.entries.iter_mut().zip(others) {
            *place = Some(*entry);
        }
        if old.iter().flatten().any(|entry| entry.name == name) {
            Ok(())
        } else {
            Err(ABSENT)
        }
    }

    pub(crate) fn wipe(&mut self) {
        self.entries = [None; MOST_PLACES];
    }

    pub(crate) fn holds(&self, name: Name) -> bool {
        self.find(name).is_some()
    }

    pub(crate) fn from(&self, name: Name) -> Option<Name> {
        let mut least = None;
        for entry in self.entries.iter().flatten() {
            let is_nearer = least.is_none_or(|least| precedes(entry.name, least));
            if !precedes(entry.name, name) && is_nearer {
                least = Some(entry.name);
            }
        }
        least
    }
}
