// Which server holds which part of a stripe. Part 0 is the parity, part i + 1 is data fragment i:
// parts go by number, since the model uses none of the code's enums.
ghost use Rattle.std.specs.Prelude.{◌<◌};

pub(crate) fn server_of(row: u8, client: u8, stripe: u32, part: u16) -> u8
    requires { 0 < row }
{
    ((u64::from(client) + u64::from(stripe) + u64::from(part)) % u64::from(row)) as u8
}

// The one part that lies on this server, or none where there is no part there or more than one.
pub(crate) fn only_part_on(row: u8, client: u8, stripe: u32, server: u8) -> Option<u16>
    requires { 0 < row }
{
    let lies_here = |part: &u16| server_of(row, client, stripe, *part) == server;
    let mut parts = (0..u16::from(row)).filter(lies_here);
    match (parts.next(), parts.next()) {
        (only, None) => only,
        _ => None,
    }
}
