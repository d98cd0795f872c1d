// Decimal digits as a number.
ghost use Rattle.std.specs.Prelude.{◌≡◌, ◌+◌, ◌-◌, ◌*◌, min, if◌then◌else◌, Some, None, nat_lt};
ghost use Rattle.workshop.specs.Lines.{digit_count, read_on};

// Numbers are below this one.
const TOO_LARGE: u32 = 1 << 16;

// How many of the first bytes are decimal digits.
pub(crate) fn digits_in_front(text: &[u8]) -> usize
    ensures { result ≡ digit_count text.now }
{
    text.iter()
        .position(|c| !c.is_ascii_digit())
        .unwrap_or(text.len())
}

// A number with one digit more behind it, or `TOO_LARGE` where that is too large.
fn with_digit(number: u32, digit: u8) -> u32
    ensures { result ≡ min (number * 10 + (digit - 48)) 65536 }
{
    number
        .saturating_mul(10)
        .saturating_add(u32::from(digit.saturating_sub(b'0')))
        .min(TOO_LARGE)
}

// The number that the digits write, or none where it is above 65,535. Not by `parse`, which would first
// look at the digits once more to see that they are text.
pub(crate) fn number(digits: &[u8]) -> Option<u16>
    ensures { result ≡ (if nat_lt (read_on 0 digits.now) 65536 then Some (read_on 0 digits.now) else None) }
{
    let number = digits
        .iter()
        .fold(0, |number, digit| with_digit(number, *digit));
    u16::try_from(number).ok()
}
