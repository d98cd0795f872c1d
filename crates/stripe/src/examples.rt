// The worked examples of the formats, in one statement.
ghost use Rattle.std.specs.Prelude.{◌≡◌, true};
ghost use Rattle.stripe.specs.Examples.{Examples};

// True; that the examples hold is what its contract says.
pub fn examples_stand() -> bool
    ensures value { result ≡ true }
    ensures examples { Examples }
{
    true
}
