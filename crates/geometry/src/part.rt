// A part of a stripe: its parity fragment, or the data fragment of an index from 0 to N − 2.
#[derive(Clone, Copy, PartialEq, Eq, Debug)]
pub enum Part {
    Parity,
    Data(u8),
}
