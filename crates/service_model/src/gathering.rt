// Gather: the cleaner copies the live slots of a sealed stripe into its open one.
use crate::call::{Answer, Ticket};
use crate::client::MOST_SOURCES;
use crate::reading::bad_fragment;
use crate::stop::{Stop, refused};
use crate::table::Spot;
use crate::world::World;
use rack_model::fault::{Cause, Place};
use rack_model::key::Key;
use rack_model::placement::{data_fragments, stripe_slots};
use rack_model::slot::{Delta, Pair, Slot};
use rack_model::stripe::index_on;
use std::alloc::AllocError;

const LAST_MOVE: u16 = 65535;

// A slot that an entry points at, and what that entry says of it.
#[derive(Clone, Copy)]
struct Live {
    spot: Spot,
    delta: Delta,
}

// How many slots are live. Those that two entries point at stand side by side.
fn count(live: &[Live]) -> usize {
    let mut count = 0usize;
    let mut last = None;
    for one in live {
        if last != Some(one.spot) {
            count = count.saturating_add(1);
        }
        last = Some(one.spot);
    }
    count
}

fn moved(slot: Slot) -> Slot {
    let mut copy = slot;
    copy.delta.pair = Pair {
        version: slot.delta.pair.version,
        moves: slot.delta.pair.moves.saturating_add(1),
    };
    copy
}

impl World {
    // The live slots of a stripe, in order.
    fn live(&self, key: Key) -> Result<Vec<Live>, AllocError> {
        let mut all = Vec::new(self.heap);
        for number in 0..stripe_slots(self.servers()) {
            let spot = Spot::of(key, number);
            for (block, entry) in self.table.entries.iter() {
                if spot == Some(entry.spot) {
                    let delta = entry.delta(*block);
                    all.push(Live {
                        spot: entry.spot,
                        delta,
                    })?;
                }
            }
        }
        Ok(all)
    }

    // The data fragments that have one of these slots.
    fn wanted(&self, live: &[Live]) -> Result<Vec<u8>, AllocError> {
        let mut all = Vec::new(self.heap);
        for index in 0..data_fragments(self.servers()) {
            if live.iter().any(|one| one.spot.index == index) {
                all.push(index)?;
            }
        }
        Ok(all)
    }

    // The stripe must be sealed, and no source already.
    fn must_be_source(&self, ticket: Ticket, key: Key) -> Result<(), Stop> {
        let is_source = self.must_hold(ticket)?.sources.contains(&key);
        if is_source || !self.is_sealed(key)? {
            return Err(refused(Cause::Absent, Place::Stripe(key)));
        }
        Ok(())
    }

    // The open stripe must take the live slots and one more source, and each slot one more move.
    fn must_fit(&self, ticket: Ticket, live: &[Live]) -> Result<(), Stop> {
        let place = Place::Client(ticket.client);
        let sources = self.must_hold(ticket)?.sources.len();
        if self.empty_slots(ticket)? < count(live) || sources >= MOST_SOURCES {
            return Err(refused(Cause::StripeFull, place));
        }
        if live.iter().any(|one| one.delta.pair.moves == LAST_MOVE) {
            return Err(refused(Cause::Spent, place));
        }
        Ok(())
    }

    // Each live slot must read as its entry says; of faults that on the smallest server is named.
    fn must_read(&self, key: Key, live: &[Live]) -> Result<(), Stop> {
        for server in 0..self.servers() {
            let index = index_on(self.servers(), key, server);
            for one in live {
                if index == Some(one.spot.index)
                    && let Err(flaw) = self.slot_at(one.spot, one.delta)
                {
                    return Err(bad_fragment(flaw, server, key));
                }
            }
        }
        Ok(())
    }

    fn note_source(&mut self, ticket: Ticket, key: Key) -> Result<(), AllocError> {
        let client = self.service.clients.get_mut(usize::from(ticket.client));
        if let Some(open) = client.and_then(|one| one.held_mut(ticket.begin)) {
            open.sources.push(key)?;
        }
        Ok(())
    }

    pub(crate) fn gather(&mut self, ticket: Ticket, key: Key) -> Result<Answer, Stop> {
        self.must_be_warm()?;
        if ticket.client != 0 {
            let place = Place::Client(ticket.client);
            return Err(refused(Cause::BadClient, place));
        }
        self.must_be_source(ticket, key)?;
        let live = self.live(key)?;
        self.must_fit(ticket, &live)?;
        let wanted = self.wanted(&live)?;
        self.must_stand(&self.needed(key, &wanted)?, key)?;
        self.must_read(key, &live)?;
        let mut copies = 0u64;
        let mut last = None;
        for one in live.iter() {
            if last != Some(one.spot)
                && let Ok(slot) = self.slot_at(one.spot, one.delta)
            {
                self.fill(ticket, moved(slot))?;
                copies = copies.saturating_add(1);
            }
            last = Some(one.spot);
        }
        self.note_source(ticket, key)?;
        Ok(Answer::Copies(copies))
    }
}
