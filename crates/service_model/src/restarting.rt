// Restart: the table is made again from the stripes that count, and what does not count goes.
use crate::call::Answer;
use crate::reading::{bad_fragment, slot_of};
use crate::row::Change;
use crate::stop::{Stop, refused};
use crate::table::{PlacedSlot, Spot, Table};
use crate::world::{CLIENTS, World};
use rack_model::fault::{Cause, Place};
use rack_model::key::Key;
use rack_model::placement::data_fragments;
use rack_model::stripe::index_on;
use std::alloc::AllocError;

// What the counting stripes say.
#[derive(Drop)]
struct Found {
    table: Table,
    highest_version: u32,
}

impl World {
    fn must_be_row(&self, out: Option<u8>) -> Result<(), Stop> {
        if !matches!(self.servers(), 3..=8) {
            return Err(refused(Cause::BadServer, Place::Nowhere));
        }
        match out {
            Some(server) => self.must_have_server(server),
            None => Ok(()),
        }
    }

    // The stripes of which at least all servers but one hold a fragment, in key order.
    fn counting(&self, in_use: &[u8]) -> Result<Vec<Key>, AllocError> {
        let mut all = Vec::new(self.heap);
        for key in self.row.keys(self.heap, in_use)?.iter() {
            if self.row.holders(in_use, *key) >= data_fragments(self.servers()) {
                all.push(*key)?;
            }
        }
        Ok(all)
    }

    // Each server in use must have places for the counting stripes that it lacks.
    fn must_have_places(&self, in_use: &[u8], counting: &[Key]) -> Result<(), Stop> {
        for server in in_use {
            let mut lacking = 0u64;
            for key in counting {
                if !self.row.holds(*server, *key) {
                    lacking = lacking.saturating_add(1);
                }
            }
            if lacking > self.row.free(*server) {
                return Err(refused(Cause::Full, Place::Server(*server)));
            }
        }
        Ok(())
    }

    // The fragments of a stripe must read; of those that do not that on the smallest server is named.
    fn must_read_whole(&self, out: Option<u8>, key: Key) -> Result<(), Stop> {
        for server in 0..self.servers() {
            if let Some(index) = index_on(self.servers(), key, server)
                && let Err(flaw) = self.slots(out, key, index)
            {
                return Err(bad_fragment(flaw, server, key));
            }
        }
        Ok(())
    }

    fn placed_slots(&self, out: Option<u8>, key: Key) -> Result<Vec<PlacedSlot>, AllocError> {
        let mut all = Vec::new(self.heap);
        for index in 0..data_fragments(self.servers()) {
            let Ok(slots) = self.slots(out, key, index) else {
                continue;
            };
            for slot in 0..3 {
                let spot = Spot { key, index, slot };
                if let Some(slot) = slot_of(&slots, slot) {
                    all.push(PlacedSlot { spot, slot })?;
                }
            }
        }
        Ok(all)
    }

    fn read_all(&self, out: Option<u8>, counting: &[Key]) -> Result<Found, Stop> {
        let mut table = Table::new(self.heap, self.table.room);
        let mut highest_version = 0;
        for key in counting {
            self.must_read_whole(out, *key)?;
            let slots = self.placed_slots(out, *key)?;
            if !table.has_room(self.heap, &slots)? {
                return Err(refused(Cause::TableFull, Place::Nowhere));
            }
            let _ = table.take_all(&slots)?;
            for placed in slots.iter() {
                highest_version = placed.slot.delta.pair.version.max(highest_version);
            }
        }
        Ok(Found {
            table,
            highest_version,
        })
    }

    // Key by key: what does not count is deleted, and a missing fragment of what counts is stored.
    fn restart_changes(&self, in_use: &[u8], counting: &[Key]) -> Result<Vec<Change>, AllocError> {
        let mut changes = Vec::new(self.heap);
        for key in self.row.keys(self.heap, in_use)?.iter() {
            let key = *key;
            let counts = counting.contains(&key);
            for server in in_use {
                let server = *server;
                let is_held = self.row.holds(server, key);
                if is_held && !counts {
                    changes.push(Change::Delete { server, key })?;
                }
                if counts && !is_held {
                    let bytes = self.row.put_together(server, key);
                    changes.push(Change::Store { server, key, bytes })?;
                }
            }
        }
        Ok(changes)
    }

    // A warm service over what was found.
    fn warm_up(&mut self, out: Option<u8>, counting: &[Key], found: Found) {
        let Found {
            table,
            highest_version,
        } = found;
        self.table = table;
        self.service.is_warm = true;
        self.service.out = out;
        self.service.all_idle();
        self.service.next_version = u64::from(highest_version).saturating_add(1);
        for client in 0..CLIENTS {
            self.service.set_next_stripe(client, 0);
        }
        for key in counting {
            let next = u64::from(key.stripe).saturating_add(1);
            self.service.set_next_stripe(key.client, next);
        }
    }

    fn restart_checked(&mut self, out: Option<u8>, budget: u64) -> Result<Answer, Stop> {
        self.must_be_row(out)?;
        let in_use = self.row.in_use(self.heap, out)?;
        let counting = self.counting(&in_use)?;
        self.must_have_places(&in_use, &counting)?;
        let found = self.read_all(out, &counting)?;
        let changes = self.restart_changes(&in_use, &counting)?;
        self.make_all(&changes, budget)?;
        self.warm_up(out, &counting, found);
        Ok(Answer::Counting(counting.len() as u64))
    }

    // A restart that is refused leaves an empty table and a cold service.
    pub(crate) fn restart(&mut self, out: Option<u8>, budget: u64) -> Result<Answer, Stop> {
        let answer = self.restart_checked(out, budget);
        if let Err(Stop::Refused(_)) = answer {
            self.table.entries.clear();
            self.service.is_warm = false;
        }
        answer
    }
}
