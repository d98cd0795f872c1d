// What a table can hold: an element that has a number, by which it is ordered and found.
ghost use Rattle.std.specs.Prelude.{◌≡◌, ℕ};

pub trait Keyed {
    ghost number: { Self → ℕ };

    fn key_number(&self) -> u64
        ensures { result ≡ number self.now };
}
