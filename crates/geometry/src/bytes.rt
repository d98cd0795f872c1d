// Runs of bytes.
ghost use Rattle.std.specs.Prelude.{◌≡◌};
ghost use Rattle.geometry.specs.Bytes.{zeros};

// How many bytes are compared with zeros at once. One by one, a long run takes ten times as long.
const WIDTH: usize = 16;

// Whether all these bytes are zero.
pub fn all_zero(bytes: &[u8]) -> bool
    ensures { result ≡ zeros bytes.now }
{
    let (parts, rest) = bytes.as_chunks();
    parts.iter().all(|part| *part == [0; WIDTH]) && rest.iter().all(|b| *b == 0)
}
