// The newest open slot of a block.
ghost use Rattle.std.specs.Prelude.{◌≡◌, map, drop};
ghost use Rattle.rack.specs.Entries.{block_number};
ghost use Rattle.rack.specs.Worlds.{filled_of};
ghost use Rattle.open_stripe.specs.Newest.{newest_in};
ghost use Rattle.clients.specs.Means.{client_of, clients_of};
ghost use Rattle.clients.specs.Newest.{newest_of, newer_of_two, Finds};

use crate::list::Clients;
use crate::state::ClientState;
use open_stripe::newest::OpenSlot;
use open_stripe::open::OpenStripe;

// A slot, and the open stripe that it is in.
#[derive(Clone, Copy)]
pub struct NewestSlot<'a> {
    pub stripe: &'a OpenStripe,
    pub slot: OpenSlot,
}

// Of two, the second if its version is higher.
fn newer<'a>(
    first: Option<NewestSlot<'a>>,
    second: Option<NewestSlot<'a>>,
) -> Option<NewestSlot<'a>>
    ensures { result ≡ newer_of_two first.entry second.entry }
{
    match (first, second) {
        (Some(first), Some(second)) => {
            if first.slot.delta.version < second.slot.delta.version {
                Some(second)
            } else {
                Some(first)
            }
        }
        (first, None) => first,
        (None, second) => second,
    }
}

impl ClientState {
    // The newest slot of this block in the client's open stripe.
    fn newest(&self, file: u16, block: u16) -> Option<NewestSlot<'_>>
        ensures { Finds (newest_in (block_number file block) (filled_of (client_of self.now))) result }
    {
        let stripe = self.stripe()?;
        let slot = stripe.newest(file, block)?;
        Some(NewestSlot { stripe, slot })
    }
}

fn newest_among(states: &[ClientState], file: u16, block: u16) -> Option<NewestSlot<'_>>
    ensures { Finds (newest_of (block_number file block) (map client_of states.now)) result }
{
    let mut newest = None;
    for state in states {
        newest = newer(newest, state.newest(file, block));
    }
    newest
}

impl Clients {
    // The newest slot of this block in the open stripes of clients 1 to 7. What client 0, the cleaner,
    // holds are copies of sealed slots.
    pub fn newest(&self, file: u16, block: u16) -> Option<NewestSlot<'_>>
        ensures { Finds (newest_of (block_number file block) (drop 1 (clients_of self.now))) result }
    {
        newest_among(&self.states()[1..], file, block)
    }
}
