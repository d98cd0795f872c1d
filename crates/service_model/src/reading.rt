// Reading: a block, and the slots of data fragments.
use crate::call::Answer;
use crate::stop::{Stop, refused};
use crate::table::{Entry, Spot};
use crate::world::World;
use rack_model::codec::{Slots, Wanted, read};
use rack_model::fault::{Cause, Fault, Flaw, Place};
use rack_model::key::{BlockId, Key};
use rack_model::placement::data_server;
use rack_model::slot::{Delta, Kind, Slot};
use std::alloc::AllocError;

fn absent() -> Stop {
    refused(Cause::Absent, Place::Nowhere)
}

pub(crate) fn bad_fragment(flaw: Flaw, server: u8, key: Key) -> Stop {
    refused(Cause::BadFragment(flaw), Place::Fragment { server, key })
}

fn found(slot: &Slot) -> Result<Answer, Stop> {
    match slot.delta.kind {
        Kind::Trim => Err(absent()),
        Kind::Write => Ok(Answer::Found {
            version: slot.delta.pair.version,
            content: slot.content,
        }),
    }
}

// The slot of this number of a fragment's three, if it is filled.
pub(crate) fn slot_of(slots: &Slots, number: u8) -> Option<Slot> {
    slots.get(usize::from(number)).copied().flatten()
}

impl World {
    // The slots of a data fragment, put together from the others where its server is out or lacks it.
    pub(crate) fn slots(&self, out: Option<u8>, key: Key, index: u8) -> Result<Slots, Flaw> {
        let servers = self.servers();
        let server = data_server(servers, key, index);
        let bytes = self.row.fragment(out, server, key);
        let wanted = Wanted {
            servers,
            key,
            index,
        };
        read(&bytes, wanted)
    }

    // The servers whose fragments must stand where these data fragments are read: those that they
    // lie on, and all in use where one of them lies on the server that is out.
    pub(crate) fn needed(&self, key: Key, indexes: &[u8]) -> Result<Vec<u8>, AllocError> {
        let servers = self.servers();
        let lies_on = |server: u8| {
            indexes
                .iter()
                .any(|index| data_server(servers, key, *index) == server)
        };
        let needs_all = self.service.out.is_some_and(lies_on);
        let mut all = Vec::new(self.heap);
        for server in self.in_use()?.iter() {
            if needs_all || lies_on(*server) {
                all.push(*server)?;
            }
        }
        Ok(all)
    }

    // The slot that the table says is there, or why it is not.
    pub(crate) fn slot_at(&self, spot: Spot, delta: Delta) -> Result<Slot, Flaw> {
        let slots = self.slots(self.service.out, spot.key, spot.index)?;
        match slot_of(&slots, spot.slot) {
            Some(slot) if slot.delta == delta => Ok(slot),
            _ => Err(Flaw::Slot),
        }
    }

    // The newest filled slot of this block in the open stripes.
    fn newest_open(&self, block: BlockId) -> Option<Slot> {
        let mut newest: Option<Slot> = None;
        for client in self.service.clients.iter().skip(1) {
            let Some(open) = client.open() else {
                continue;
            };
            for slot in open.slots.iter() {
                let version = slot.delta.pair.version;
                let is_newer = newest.is_none_or(|other| version > other.delta.pair.version);
                if slot.delta.block == block && is_newer {
                    newest = Some(*slot);
                }
            }
        }
        newest
    }

    fn read_sealed(&self, block: BlockId, entry: Entry) -> Result<Answer, Stop> {
        let spot = entry.spot;
        if entry.kind == Kind::Trim || !spot.is_of_row(self.servers()) {
            return Err(absent());
        }
        self.must_stand(self.needed(spot.key, &[spot.index])?.as_slice(), spot.key)?;
        match self.slot_at(spot, entry.delta(block)) {
            Ok(slot) => found(&slot),
            Err(flaw) => {
                let server = data_server(self.servers(), spot.key, spot.index);
                Err(bad_fragment(flaw, server, spot.key))
            }
        }
    }

    // The highest version wins, and the table's entry where an open slot has the same.
    pub(crate) fn read(&self, block: BlockId) -> Result<Answer, Stop> {
        self.must_be_warm()?;
        let entry = self.table.entry(block);
        let sealed = entry.map_or(0, |one| one.pair.version);
        if let Some(slot) = self.newest_open(block)
            && slot.delta.pair.version > sealed
        {
            return found(&slot);
        }
        match entry {
            Some(entry) => self.read_sealed(block, entry),
            None => Err(absent()),
        }
    }
}
