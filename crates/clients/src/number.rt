// The number of a client, 0 to 7. Client 0 is the cleaner.
ghost use Rattle.std.specs.Prelude.{◌<◌};

mod calls;

#[derive(Clone, Copy, PartialEq, Eq, Debug)]
pub struct ClientNumber {
    number: u8,
    ghost known: { number < 8 },
}
