// The length of a row, 3 to 8 servers. They are numbered from 0.
ghost use Rattle.std.specs.Prelude.{◌≤◌};

mod calls;
mod counts;

#[derive(Clone, Copy, PartialEq, Eq, Debug)]
pub struct RowLength {
    servers: u8,
    ghost least: { 3 ≤ servers },
    ghost most: { servers ≤ 8 },
}
