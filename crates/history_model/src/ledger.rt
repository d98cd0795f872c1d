// Which stripes must stand on the servers, and with which slots.
use rack_model::key::Key;
use rack_model::placement::data_fragments;
use rack_model::slot::Slot;
use rack_model::stripe::fragment_on;
use service_model::call::{Answer, Call};
use service_model::world::World;
use std::alloc::{AllocError, Global};
use std::collections::BTreeMap;

// A seal that is about to be called.
#[derive(Drop)]
pub struct SealAhead {
    pub key: Option<Key>,
    pub slots: Vec<Slot>,
    pub sources: Vec<Key>,
}

#[derive(Drop)]
pub struct Ledger {
    pub stripes: BTreeMap<Key, Vec<Slot>>,
    // The stripe of the seal cut last, until a restart is accepted.
    pub cut: Option<(Key, Vec<Slot>)>,
}

// What of the ledger counts at a restart that is about to be called.
#[derive(Drop)]
pub struct Counting {
    pub lost: Vec<Key>,
    // Whether the stripe of the seal cut last counts, if there is such a stripe.
    pub cut_seal: Option<bool>,
}

// What the ticket's stripe holds, if the call is a seal.
pub fn seal_ahead(world: &World, call: &Call) -> Result<Option<SealAhead>, AllocError> {
    let Call::Seal { ticket, .. } = *call else {
        return Ok(None);
    };
    let client = world.service.client(ticket.client);
    let Some(open) = client.and_then(|one| one.held(ticket.begin)) else {
        return Ok(None);
    };
    let client = ticket.client;
    let mut key = None;
    if !open.slots.is_empty() {
        let next = u32::try_from(world.service.next_stripe(client)).ok();
        key = next.map(|stripe| Key { client, stripe });
    }
    Ok(Some(SealAhead {
        key,
        slots: open.slots.clone()?,
        sources: open.sources.clone()?,
    }))
}

// Whether at least all servers but one hold the key, of those in use.
fn counts(world: &World, in_use: &[u8], key: Key) -> bool {
    world.row.holders(in_use, key) >= data_fragments(world.servers())
}

impl Ledger {
    pub fn new(heap: Global) -> Ledger {
        Ledger {
            stripes: BTreeMap::new(heap),
            cut: None,
        }
    }

    pub fn note_seal(&mut self, ahead: SealAhead, answer: &Answer) -> Result<(), AllocError> {
        let SealAhead {
            key,
            slots,
            sources,
        } = ahead;
        match *answer {
            Answer::Behind(_) => {
                if let Some(new) = key {
                    self.stripes.insert(new, slots)?;
                }
                for source in sources.iter() {
                    let _ = self.stripes.remove(source);
                }
            }
            Answer::Cut => {
                self.cut = key.map(|new| (new, slots));
            }
            _ => {}
        }
        Ok(())
    }

    // What counts if the restart called next names this server out.
    pub fn counting(&self, world: &World, out: Option<u8>) -> Result<Counting, AllocError> {
        let in_use = world.row.in_use(world.heap, out)?;
        let mut lost = Vec::new(world.heap);
        for key in self.stripes.keys() {
            if !counts(world, &in_use, *key) {
                lost.push(*key)?;
            }
        }
        let cut_seal = match &self.cut {
            Some((key, _)) => Some(counts(world, &in_use, *key)),
            None => None,
        };
        Ok(Counting { lost, cut_seal })
    }

    pub fn note_restart(&mut self, counting: &Counting) -> Result<(), AllocError> {
        for key in counting.lost.iter() {
            let _ = self.stripes.remove(key);
        }
        if let Some((key, slots)) = self.cut.take()
            && counting.cut_seal == Some(true)
        {
            self.stripes.insert(key, slots)?;
        }
        Ok(())
    }

    // Whether this server holds exactly the fragments placed on it, byte for byte.
    pub fn agrees_on(&self, world: &World, server: u8) -> bool {
        let Some(one) = world.row.server(server) else {
            return false;
        };
        let servers = world.servers();
        let mut agrees = one.held.len() == self.stripes.len();
        for (key, slots) in self.stripes.iter() {
            let fragment = fragment_on(servers, *key, server, slots);
            agrees = agrees && one.held.get(key).copied() == Some(fragment);
        }
        agrees
    }

    // The same of each server in use.
    pub fn agrees(&self, world: &World) -> Result<bool, AllocError> {
        let mut agrees = true;
        for server in world.in_use()?.iter() {
            agrees = agrees && self.agrees_on(world, *server);
        }
        Ok(agrees)
    }
}
