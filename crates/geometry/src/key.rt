// A key names one stripe of one client. No key can be formed but of a client 0 to 7 and a stripe
// number of 32 bits. Keys are ordered by client, then by stripe.
ghost use Rattle.std.specs.Prelude.{◌^◌, ◌<◌};

mod calls;
mod looks;
mod numbers;

#[derive(Clone, Copy, PartialEq, Eq, PartialOrd, Ord, Debug)]
pub struct Key {
    client: u8,
    stripe: u32,
    ghost known: { client < 8 },
    ghost narrow: { stripe < 2 ^ 32 },
}
