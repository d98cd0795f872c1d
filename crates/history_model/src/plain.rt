// The plain rack: what a rack remembers, as a list of records and a next version.
use rack_model::key::BlockId;
use rack_model::slot::{Content, Kind, NO_CONTENT};
use service_model::call::{Answer, Call};
use std::alloc::{AllocError, Global};

#[derive(Clone, Copy)]
pub struct Record {
    pub version: u32,
    pub client: u8,
    pub block: BlockId,
    pub kind: Kind,
    pub content: Content,
    pub is_sealed: bool,
}

#[derive(Drop)]
pub struct PlainRack {
    pub records: Vec<Record>,
    pub next_version: u64,
    // Whose seal was cut last, until a restart is accepted.
    pub cut_seal: Option<u8>,
}

impl PlainRack {
    pub fn new(heap: Global) -> PlainRack {
        PlainRack {
            records: Vec::new(heap),
            next_version: 1,
            cut_seal: None,
        }
    }

    // The newest write kept for a block, if it is no trim.
    pub fn newest(&self, block: BlockId) -> Option<Record> {
        let mut newest: Option<Record> = None;
        for record in self.records.iter() {
            let is_newer = newest.is_none_or(|other| record.version > other.version);
            if record.block == block && is_newer {
                newest = Some(*record);
            }
        }
        newest.filter(|record| record.kind == Kind::Write)
    }

    fn add(
        &mut self,
        client: u8,
        block: BlockId,
        kind: Kind,
        content: Content,
    ) -> Result<(), AllocError> {
        if let Ok(version) = u32::try_from(self.next_version) {
            self.records.push(Record {
                version,
                client,
                block,
                kind,
                content,
                is_sealed: false,
            })?;
            self.next_version = self.next_version.saturating_add(1);
        }
        Ok(())
    }

    fn mark_sealed(&mut self, client: u8) {
        for record in self.records.iter_mut() {
            if record.client == client {
                record.is_sealed = true;
            }
        }
    }

    fn withdraw(&mut self, client: u8) {
        self.records
            .retain(|record| record.is_sealed || record.client != client);
    }

    // A restart was accepted. `counts` says whether the stripe of the seal cut last counts.
    fn restart(&mut self, counts: bool) {
        if let Some(client) = self.cut_seal
            && counts
        {
            self.mark_sealed(client);
        }
        self.cut_seal = None;
        self.records.retain(|record| record.is_sealed);
        let mut next = 1u64;
        for record in self.records.iter() {
            next = next.max(u64::from(record.version).saturating_add(1));
        }
        self.next_version = next;
    }

    // What a call and its answer do to the list.
    pub fn note(&mut self, call: &Call, answer: &Answer, counts: bool) -> Result<(), AllocError> {
        match (*call, *answer) {
            (
                Call::Write {
                    ticket,
                    block,
                    content,
                },
                Answer::Version(_),
            ) => {
                self.add(ticket.client, block, Kind::Write, content)?;
            }
            (Call::Trim { ticket, block }, Answer::Version(_)) => {
                self.add(ticket.client, block, Kind::Trim, NO_CONTENT)?;
            }
            (Call::Seal { ticket, .. }, Answer::Behind(_)) => self.mark_sealed(ticket.client),
            (Call::Seal { ticket, .. }, Answer::Cut) => self.cut_seal = Some(ticket.client),
            (Call::Withdraw { ticket }, Answer::Done) => self.withdraw(ticket.client),
            (Call::Restart { .. }, Answer::Counting(_)) => self.restart(counts),
            _ => {}
        }
        Ok(())
    }
}
