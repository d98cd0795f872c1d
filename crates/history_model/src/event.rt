// What happens next on a rack.
use rack_model::codec::Bytes;
use rack_model::key::Key;
use service_model::call::Call;

// More changes than any call makes.
pub const ENOUGH: u64 = 18446744073709551615;

#[derive(Drop)]
pub enum Event {
    Call(Call),
    // The server that is out now holds this.
    Garble { server: u8, held: Vec<(Key, Bytes)> },
}
