// Readings taken from lines of text.
ghost use Rattle.std.specs.Prelude.{Some, length};
ghost use Rattle.workshop.specs.Inputs.{taken_line, AddedLine, input_message};

use crate::reading::{Reading, parse};
use crate::wrong::Wrong;
use std::error::Error;
use std::fmt;

// As many readings as the program keeps.
pub const MOST_READINGS: usize = 10_000;

// What is wrong with the input, and on which line.
#[derive(Clone, Copy, PartialEq, Eq, Debug)]
pub enum InputFault {
    Line(usize, Wrong),
    TooMany(usize),
    Memory(usize),
}

// By hand: it names the line, and what is wrong there. `output` states the text, which is proved.
impl fmt::Display for InputFault {
    ghost output = { λ f. Some (input_message f) };

    fn fmt<W: fmt::Write>(&self, f: &mut fmt::Formatter<W>) -> fmt::Result {
        match self {
            InputFault::Line(line, wrong) => write!(f, "line {line}: {wrong}"),
            InputFault::TooMany(line) => write!(
                f,
                "line {line}: too many readings, at most {MOST_READINGS}"
            ),
            InputFault::Memory(line) => write!(f, "line {line}: no memory left for it"),
        }
    }
}

impl Error for InputFault {}

// Adds the reading on this line. A line that is refused leaves the readings as they were.
pub fn add_line(readings: &mut Vec<Reading>, line: usize, text: &[u8]) -> Result<(), InputFault>
    ensures { AddedLine line (taken_line (length readings.old.items) line text.now) readings.old.items readings.new.items result }
{
    let reading = parse(text).map_err(|wrong| InputFault::Line(line, wrong))?;
    if readings.len() >= MOST_READINGS {
        return Err(InputFault::TooMany(line));
    }
    readings.push(reading).map_err(|_| InputFault::Memory(line))
}
