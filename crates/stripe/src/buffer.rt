// A stripe being filled, in memory: its slots, in order, with no row and no key yet. It has room for
// the slots of the longest row. Its bytes are those of its slots and nothing else, and each slot can be
// read back.
ghost use Rattle.std.specs.Prelude.{◌≤◌};
ghost use Rattle.geometry.specs.Sizes.{most_slots};
ghost use Rattle.std.specs.List.{AllByRecursion, AllByRecursion-prop};
ghost use Rattle.fragment.specs.Slots.{Fair};
ghost use Rattle.stripe.specs.Buffers.{slots_from, Fair-prop, Formed};

use crate::slots::SlotBytes;

mod calls;
mod looks;

// Its memory is fixed, so the slots are arrays with the number of those filled beside them.
#[derive(Drop)]
pub struct StripeBuffer {
    filled: usize,
    slots: SlotBytes,
    ghost few: { filled ≤ most_slots },
    ghost formed: { Formed slots.fragments filled },
    ghost fair: { AllByRecursion Fair (slots_from slots.fragments filled) } by { AllByRecursion-prop Fair Fair-prop (slots_from slots.fragments filled) },
}
