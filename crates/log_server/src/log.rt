// The log server: the bytes it works on, how many records they have, and how many of these are
// held. Its type says that the counts are those that the bytes mean.
ghost use Rattle.std.specs.Prelude.{◌≡◌, length};
ghost use Rattle.log_server.specs.Area.{area_places, area_pieces};

mod reading;
mod serve;

#[derive(Drop)]
pub struct LogServer<'a> {
    // Lent, as the service takes no memory of its own. The counts save a walk over it at each call.
    bytes: &'a mut [u8],
    capacity: usize,
    held: usize,
    ghost places: { capacity ≡ area_places bytes.now },
    ghost count: { held ≡ length (area_pieces bytes.now) },
}
