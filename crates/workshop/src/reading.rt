// A gate reading: the pressure of one tyre of one truck, as the line `truck=17 tyre=3 kpa=780`.
ghost use Rattle.std.specs.Prelude.{◌≡◌};
ghost use Rattle.workshop.specs.Lines.{taken_in, read_number, read_field, read_line, ReadsBack, ReadsNothingElse};

use crate::decimal::{digits_in_front, number};
use crate::wrong::{Field, Wrong};

#[derive(Clone, Copy, PartialEq, Eq, Debug)]
pub struct Reading {
    pub truck: u16,
    pub tyre: u16,
    pub kpa: u16,
}

// A number taken from the front of a text, and the text after it.
#[derive(Clone, Copy)]
struct Taken<'a> {
    number: u16,
    rest: &'a [u8],
}

fn take_number(text: &[u8], field: Field) -> Result<Taken<'_>, Wrong>
    ensures { taken_in result ≡ read_number field text.now }
{
    let (digits, rest) = text.split_at(digits_in_front(text));
    match digits {
        [] | [b'0', _, ..] => Err(Wrong::NotANumber(field)),
        _ => {
            let number = number(digits).ok_or(Wrong::TooLarge(field))?;
            Ok(Taken { number, rest })
        }
    }
}

fn take_field(text: &[u8], field: Field) -> Result<Taken<'_>, Wrong>
    ensures { taken_in result ≡ read_field field text.now }
{
    let rest = text
        .strip_prefix(field.label().as_bytes())
        .ok_or(Wrong::Missing(field))?;
    take_number(rest, field)
}

// The reading that a line writes, without its line feed.
#[tactic(auto, using(crate::proofs::Lines::reads_back))]
pub fn parse(line: &[u8]) -> Result<Reading, Wrong>
    ensures read { result ≡ read_line line.now }
    ensures back { ReadsBack }
    ensures only { ReadsNothingElse }
{
    let truck = take_field(line, Field::Truck)?;
    let tyre = take_field(truck.rest, Field::Tyre)?;
    let kpa = take_field(tyre.rest, Field::Kpa)?;
    if !kpa.rest.is_empty() {
        return Err(Wrong::Trailing);
    }
    Ok(Reading {
        truck: truck.number,
        tyre: tyre.number,
        kpa: kpa.number,
    })
}
