// The manager's table: for each sealed block its newest slot and where that lies.
use rack_model::key::{BlockId, Key};
use rack_model::placement::data_fragments;
use rack_model::slot::{Delta, Kind, Pair, Slot};
use std::alloc::{AllocError, Global};
use std::collections::{BTreeMap, BTreeSet};

// A slot of a stripe: which data fragment, and which of its three slots.
#[derive(Clone, Copy, PartialEq, Eq)]
pub struct Spot {
    pub key: Key,
    pub index: u8,
    pub slot: u8,
}

#[derive(Clone, Copy)]
pub struct Entry {
    pub kind: Kind,
    pub pair: Pair,
    pub spot: Spot,
}

// A filled slot and where it lies.
#[derive(Clone, Copy)]
pub struct PlacedSlot {
    pub spot: Spot,
    pub slot: Slot,
}

#[derive(Drop)]
pub struct Table {
    // How many entries it takes.
    pub room: usize,
    pub entries: BTreeMap<BlockId, Entry>,
}

// The filled slots of a stripe, counted over its data fragments, where they will lie.
pub fn placed(heap: Global, key: Key, slots: &[Slot]) -> Result<Vec<PlacedSlot>, AllocError> {
    let mut all = Vec::new(heap);
    for (number, slot) in slots.iter().enumerate() {
        if let Some(spot) = Spot::of(key, number) {
            all.push(PlacedSlot { spot, slot: *slot })?;
        }
    }
    Ok(all)
}

impl Spot {
    // The spot of the slot of this number, counted over the whole stripe.
    pub fn of(key: Key, number: usize) -> Option<Spot> {
        Some(Spot {
            key,
            index: u8::try_from(number / 3).ok()?,
            slot: u8::try_from(number % 3).ok()?,
        })
    }

    pub fn is_of_row(self, servers: u8) -> bool {
        self.index < data_fragments(servers) && self.slot < 3
    }
}

impl Entry {
    // What the slot that it points at must say.
    pub fn delta(self, block: BlockId) -> Delta {
        Delta {
            kind: self.kind,
            block,
            pair: self.pair,
        }
    }
}

impl Table {
    pub fn new(heap: Global, room: usize) -> Table {
        Table {
            room,
            entries: BTreeMap::new(heap),
        }
    }

    pub fn entry(&self, block: BlockId) -> Option<Entry> {
        self.entries.get(&block).copied()
    }

    // Whether it can take the entries of all these slots.
    pub fn has_room(&self, heap: Global, slots: &[PlacedSlot]) -> Result<bool, AllocError> {
        let mut new = BTreeSet::new(heap);
        for placed in slots {
            let block = placed.slot.delta.block;
            if self.entry(block).is_none() {
                new.insert(block)?;
            }
        }
        Ok(new.len() <= self.room.saturating_sub(self.entries.len()))
    }

    // Gives the slot the entry of its block if there is none or its pair is higher, and says whether.
    pub fn take(&mut self, delta: Delta, spot: Spot) -> Result<bool, AllocError> {
        if let Some(entry) = self.entry(delta.block)
            && entry.pair >= delta.pair
        {
            return Ok(false);
        }
        let kind = delta.kind;
        let pair = delta.pair;
        self.entries
            .insert(delta.block, Entry { kind, pair, spot })?;
        Ok(true)
    }

    // Slots take their entries in order. Answers how many took none.
    pub fn take_all(&mut self, slots: &[PlacedSlot]) -> Result<u64, AllocError> {
        let mut behind = 0u64;
        for placed in slots {
            if !self.take(placed.slot.delta, placed.spot)? {
                behind = behind.saturating_add(1);
            }
        }
        Ok(behind)
    }
}
