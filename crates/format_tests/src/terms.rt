// The model's terms as values of the code, and back.
use crate::model::{Head, Slot};
use fragment::delta::{Delta, Kind};
use fragment::name::FragmentName;
use geometry::key::Key;
use geometry::placement::PlacedStripe;
use geometry::row::RowLength;

// The stripe of these numbers on a row of this many servers, where the code has such a one.
pub(crate) fn stripe_of(servers: u64, client: u64, stripe: u64) -> Option<PlacedStripe> {
    Some(PlacedStripe {
        row: RowLength::new(servers)?,
        key: Key::new(client, stripe)?,
    })
}

// The fragment whose head this is, where the code has such a one.
pub(crate) fn name_of(head: &Head) -> Option<FragmentName> {
    let stripe = stripe_of(
        u64::from(head.row),
        u64::from(head.client),
        u64::from(head.stripe),
    )?;
    Some(FragmentName {
        stripe,
        index: head.index,
    })
}

// The delta of a write or a trim with these fields.
pub(crate) fn delta_of(slot: &Slot) -> Option<Delta> {
    // By hand, since the code has no `TryFrom<u8>` for kinds: the layout says which bytes are kinds.
    let kind = match slot.kind {
        1 => Kind::Write,
        2 => Kind::Trim,
        _ => return None,
    };
    Some(Delta {
        kind,
        file: slot.file,
        block: slot.block,
        version: slot.version,
        moves: slot.moves,
    })
}

impl From<Delta> for Slot {
    fn from(delta: Delta) -> Slot {
        Slot {
            kind: u8::from(delta.kind),
            file: delta.file,
            block: delta.block,
            version: delta.version,
            moves: delta.moves,
        }
    }
}
