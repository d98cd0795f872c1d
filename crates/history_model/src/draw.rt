// Draws what happens next, from what the rack is in and what the dice say.
use crate::event::{ENOUGH, Event};
use crate::history::History;
use rack_model::codec::Bytes;
use rack_model::key::{BlockId, Key};
use rack_model::placement::stripe_slots;
use service_model::call::{Call, Ticket};
use service_model::client::Client;
use service_model::world::CLIENTS;
use std::alloc::AllocError;

// No such client, and no such ticket.
const NO_CLIENT: u8 = 8;

const NO_TICKET: Ticket = Ticket {
    client: 3,
    begin: 4000000000,
};

const SOME_BLOCK: BlockId = BlockId { file: 9, block: 9 };

impl History {
    fn draw_block(&mut self) -> BlockId {
        self.dice.pick(&self.plan.blocks).unwrap_or(SOME_BLOCK)
    }

    // Enough so many times in a hundred, else fewer than this.
    fn draw_budget(&mut self, percent: u64, most: u64) -> u64 {
        if self.dice.chance(percent) {
            ENOUGH
        } else {
            self.dice.below(most)
        }
    }

    fn draw_server(&mut self) -> u8 {
        let servers = self.world.servers();
        self.dice.byte_below(servers)
    }

    // A server number that may be beyond the row.
    fn draw_any_server(&mut self) -> u8 {
        if self.dice.chance(30) {
            self.world.servers().saturating_add(self.dice.byte_below(9))
        } else {
            self.draw_server()
        }
    }

    // A ticket that need not be good.
    fn draw_any_ticket(&mut self) -> Ticket {
        let client = self.dice.byte_below(CLIENTS);
        match self.hands.ticket(client) {
            Some(ticket) if self.dice.chance(50) => ticket,
            _ => self.dice.pick(&self.hands.stale).unwrap_or(NO_TICKET),
        }
    }

    fn draw_any_key(&mut self) -> Key {
        Key {
            client: self.dice.byte_below(CLIENTS),
            stripe: u32::from(self.dice.byte_below(6)),
        }
    }

    // Calls that are mostly refused: bad numbers, stale tickets, wrong clients.
    fn draw_odd(&mut self) -> Call {
        let block = self.draw_block();
        let ticket = self.draw_any_ticket();
        match self.dice.below(11) {
            0 => Call::Begin {
                client: self.dice.byte_below(10),
            },
            1 => Call::PickUp {
                client: self.dice.byte_below(10),
            },
            2 => Call::Park { ticket },
            3 => Call::Trim { ticket, block },
            4 => Call::Gather {
                ticket,
                key: self.draw_any_key(),
            },
            5 => Call::Seal {
                ticket,
                budget: ENOUGH,
            },
            6 => Call::Read { block: SOME_BLOCK },
            7 => Call::Pull {
                server: self.draw_any_server(),
            },
            8 => Call::Rebuild {
                server: self.draw_any_server(),
                budget: ENOUGH,
            },
            9 => Call::Begin { client: NO_CLIENT },
            _ => Call::Write {
                ticket,
                block,
                content: self.dice.bytes(),
            },
        }
    }

    // A restart names the server that is out, or may name one if none is.
    fn draw_restart(&mut self) -> Call {
        let budget = self.draw_budget(60, 5);
        let mut out = self.out;
        if out.is_none() && self.dice.chance(20) {
            out = Some(self.draw_server());
        }
        Call::Restart { out, budget }
    }

    fn draw_cold(&mut self) -> Call {
        match self.dice.below(100) {
            0..15 => self.draw_odd(),
            15..19 => Call::Restart {
                out: Some(self.world.servers()),
                budget: ENOUGH,
            },
            _ => self.draw_restart(),
        }
    }

    // Up to as many fragments as the server takes: good ones, damaged ones, and ones of no stripe.
    fn draw_garbled(&mut self, server: u8) -> Result<Vec<(Key, Bytes)>, AllocError> {
        let capacity = self.world.row.server(server).map_or(0, |one| one.capacity);
        let count = self.dice.below(u64::from(capacity).saturating_add(1));
        let keys = self.world.row.keys(self.world.heap, &[0, 1, 2])?;
        let mut held = Vec::new(self.world.heap);
        for _ in 0..count {
            let key = match self.dice.pick(&keys) {
                Some(key) if self.dice.chance(70) => key,
                _ => self.draw_any_key(),
            };
            held.push((key, self.draw_fragment(server, key)))?;
        }
        Ok(held)
    }

    fn draw_fragment(&mut self, server: u8, key: Key) -> Bytes {
        if self.dice.chance(40) {
            return self.dice.bytes();
        }
        let mut bytes = self.world.row.put_together(server, key);
        let place = usize::try_from(self.dice.below(512)).unwrap_or(0);
        if let Some(byte) = bytes.get_mut(place) {
            *byte ^= self.dice.byte_below(2);
        }
        bytes
    }

    // A client fills its stripe, and seals it when it is full, or sometimes before.
    fn draw_filling(&mut self, ticket: Ticket, filled: usize) -> Call {
        let block = self.draw_block();
        let is_full = filled >= stripe_slots(self.world.servers());
        let most = u64::from(self.world.servers()).saturating_add(2);
        let sealing = if is_full { 60 } else { 9 };
        if self.dice.chance(sealing) {
            let budget = self.draw_budget(84, most);
            return Call::Seal { ticket, budget };
        }
        match self.dice.below(100) {
            0..4 => Call::Park { ticket },
            4..6 => Call::Withdraw { ticket },
            6..36 if is_full => Call::Withdraw { ticket },
            6..18 => Call::Trim { ticket, block },
            _ => Call::Write {
                ticket,
                block,
                content: self.dice.bytes(),
            },
        }
    }

    fn draw_writer(&mut self) -> Call {
        let client = self.dice.byte_below(self.plan.writers).saturating_add(1);
        let Some(ticket) = self.hands.ticket(client) else {
            return match self.world.service.client(client) {
                Some(Client::Parked { .. }) => Call::PickUp { client },
                _ => Call::Begin { client },
            };
        };
        let open = self.world.service.client(client).and_then(|one| one.open());
        let filled = open.map_or(0, |stripe| stripe.slots.len());
        self.draw_filling(ticket, filled)
    }

    // The cleaner gathers some stripes, and seals.
    fn draw_cleaner(&mut self) -> Result<Call, AllocError> {
        let Some(ticket) = self.hands.ticket(0) else {
            return Ok(match self.world.service.client(0) {
                Some(Client::Parked { .. }) => Call::PickUp { client: 0 },
                _ => Call::Begin { client: 0 },
            });
        };
        let open = self.world.service.client(0).and_then(|one| one.open());
        let sources = open.map_or(0, |stripe| stripe.sources.len());
        let sealed = self.world.sealed()?;
        let is_ready = sources >= 1 && self.dice.chance(35);
        match self.dice.pick(&sealed) {
            Some(key) if !is_ready => Ok(Call::Gather { ticket, key }),
            _ => {
                let changes = (sources as u64).saturating_add(1);
                let most = changes.saturating_mul(u64::from(self.world.servers()));
                let budget = self.draw_budget(70, most.saturating_add(2));
                Ok(Call::Seal { ticket, budget })
            }
        }
    }

    // What is done with a server that is out.
    fn draw_while_out(&mut self, server: u8) -> Result<Event, AllocError> {
        if self.dice.chance(50) {
            let held = self.draw_garbled(server)?;
            return Ok(Event::Garble { server, held });
        }
        let most = (self.ledger.stripes.len() as u64).saturating_add(2);
        let budget = self.draw_budget(55, most);
        Ok(Event::Call(Call::Rebuild { server, budget }))
    }

    // Whether a writer's seal would find too few places.
    fn is_tight(&self) -> bool {
        let mut is_tight = false;
        for server in 0..self.world.servers() {
            is_tight = is_tight || (self.out != Some(server) && self.world.row.free(server) < 2);
        }
        is_tight
    }

    fn draw_work(&mut self) -> Result<Call, AllocError> {
        let cleaning = if self.is_tight() { 55 } else { 15 };
        if self.dice.chance(cleaning) {
            self.draw_cleaner()
        } else {
            Ok(self.draw_writer())
        }
    }

    // Mostly nothing is done about a server that is out.
    fn draw_outage(&mut self) -> Result<Event, AllocError> {
        match self.out {
            Some(server) => self.draw_while_out(server),
            None if self.dice.chance(20) => {
                let server = self.draw_server();
                Ok(Event::Call(Call::Pull { server }))
            }
            None => Ok(Event::Call(self.draw_work()?)),
        }
    }

    fn draw_warm(&mut self) -> Result<Event, AllocError> {
        match self.dice.below(1000) {
            0..30 => Ok(Event::Call(self.draw_odd())),
            30..36 => Ok(Event::Call(self.draw_restart())),
            36..60 => {
                let block = self.draw_block();
                Ok(Event::Call(Call::Read { block }))
            }
            60..130 => self.draw_outage(),
            _ => Ok(Event::Call(self.draw_work()?)),
        }
    }

    pub fn next_event(&mut self) -> Result<Event, AllocError> {
        if self.world.service.is_warm {
            return self.draw_warm();
        }
        match self.out {
            Some(server) if self.dice.chance(15) => {
                let held = self.draw_garbled(server)?;
                Ok(Event::Garble { server, held })
            }
            _ => Ok(Event::Call(self.draw_cold())),
        }
    }
}
