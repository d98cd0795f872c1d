// A server held against the model, call by call and as a whole.
use crate::call::{Answer, Asked, Call};
use crate::model::Name;
use crate::model::map::{MOST_PLACES, Map};

pub(crate) const FIRST: Name = Name {
    client: 0,
    stripe: 0,
};

// What both answer to one call, or none where they differ.
pub(crate) fn same_answer<A: Asked>(asked: &mut A, map: &mut Map, call: &Call) -> Option<Answer> {
    let expected = map.ask(call);
    if asked.ask(call) == expected {
        expected
    } else {
        None
    }
}

fn agree<A: Asked>(asked: &mut A, map: &mut Map, call: &Call) -> bool {
    same_answer(asked, map, call).is_some()
}

// The name after this one, if it is not the last of all.
fn after(name: Name) -> Option<Name> {
    match name.stripe.checked_add(1) {
        Some(stripe) => Some(Name { stripe, ..name }),
        None => (name.client < 7).then_some(Name {
            client: name.client.saturating_add(1),
            stripe: 0,
        }),
    }
}

// Whether the same keys are met on the way from the least to the greatest, with the same bytes.
fn walks_agree<A: Asked>(asked: &mut A, map: &mut Map) -> bool {
    let mut next = Some(FIRST);
    for _ in 0..=MOST_PLACES {
        let Some(name) = next else {
            return true;
        };
        match same_answer(asked, map, &Call::From(name)) {
            Some(Answer::From(Some(found))) if key_agrees(asked, map, found) => next = after(found),
            Some(Answer::From(None)) => return true,
            _ => return false,
        }
    }
    true
}

fn key_agrees<A: Asked>(asked: &mut A, map: &mut Map, name: Name) -> bool {
    agree(asked, map, &Call::Holds(name)) && agree(asked, map, &Call::Fetch(name, [165; 512]))
}

// Whether capacity, free places, keys and bytes are all the same.
pub(crate) fn maps_agree<A: Asked>(asked: &mut A, map: &mut Map) -> bool {
    agree(asked, map, &Call::Capacity) && agree(asked, map, &Call::Free) && walks_agree(asked, map)
}
