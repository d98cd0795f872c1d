// Worked examples of the formats and of the service, in one statement: each is computed from the
// definitions.
#![tactic(auto)]

ghost use Rattle.std.specs.Prelude.{◌≡◌, true};
ghost use Rattle.stripe.specs.Examples as formats;
ghost use Rattle.rack_examples.specs.Examples as service;

// True; that the examples hold is what its contract says.
pub fn examples_stand() -> bool
    ensures value { result ≡ true }
    ensures formats { formats.Examples }
    ensures service { service.Examples }
{
    true
}
