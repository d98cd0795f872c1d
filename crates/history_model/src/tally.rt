// What was run.
use rack_model::fault::Fault;
use service_model::call::{Answer, Call};

#[derive(Clone, Copy)]
pub struct Tally {
    pub histories: u64,
    pub calls: u64,
    pub accepted: u64,
    // By number; 0 counts none.
    pub refused: [u64; 14],
    pub seals_cut: u64,
    pub rebuilds_cut: u64,
    pub restarts_cut: u64,
    pub reads: u64,
    pub reads_without: u64,
    pub rebuilds: u64,
    pub seals: u64,
    pub cleanings: u64,
    pub restarts: u64,
    pub garbled: u64,
    // Slots copied by gathers, and slots of seals that took no entry.
    pub copied: u64,
    pub behind: u64,
    pub cut_seals_counting: u64,
    pub cut_seals_lost: u64,
}

// One more.
pub fn raise(count: &mut u64) {
    *count = count.saturating_add(1);
}

impl Tally {
    pub fn new() -> Tally {
        Tally {
            histories: 0,
            calls: 0,
            accepted: 0,
            refused: [0; 14],
            seals_cut: 0,
            rebuilds_cut: 0,
            restarts_cut: 0,
            reads: 0,
            reads_without: 0,
            rebuilds: 0,
            seals: 0,
            cleanings: 0,
            restarts: 0,
            garbled: 0,
            copied: 0,
            behind: 0,
            cut_seals_counting: 0,
            cut_seals_lost: 0,
        }
    }

    fn note_refusal(&mut self, fault: Fault) {
        let number = usize::from(fault.cause.number());
        if let Some(count) = self.refused.get_mut(number) {
            raise(count);
        }
    }

    fn note_cut(&mut self, call: &Call) {
        match call {
            Call::Seal { .. } => raise(&mut self.seals_cut),
            Call::Rebuild { .. } => raise(&mut self.rebuilds_cut),
            Call::Restart { .. } => raise(&mut self.restarts_cut),
            _ => {}
        }
    }

    fn note_accepted(&mut self, call: &Call) {
        raise(&mut self.accepted);
        match call {
            Call::Seal { ticket, .. } if ticket.client == 0 => raise(&mut self.cleanings),
            Call::Seal { .. } => raise(&mut self.seals),
            Call::Restart { .. } => raise(&mut self.restarts),
            _ => {}
        }
    }

    fn note_slots(&mut self, answer: &Answer) {
        match *answer {
            Answer::Copies(count) => self.copied = self.copied.saturating_add(count),
            Answer::Behind(count) => self.behind = self.behind.saturating_add(count),
            _ => {}
        }
    }

    pub fn note(&mut self, call: &Call, answer: &Answer) {
        raise(&mut self.calls);
        self.note_slots(answer);
        match *answer {
            Answer::Refused(fault) => self.note_refusal(fault),
            Answer::Cut => self.note_cut(call),
            _ => self.note_accepted(call),
        }
    }

    // How the seal cut last came out at an accepted restart.
    pub fn note_cut_seal(&mut self, counts: Option<bool>) {
        match counts {
            Some(true) => raise(&mut self.cut_seals_counting),
            Some(false) => raise(&mut self.cut_seals_lost),
            None => {}
        }
    }
}
