// What is wrong with a line that is no reading, and how it is said to a person.
ghost use Rattle.std.specs.Prelude.{◌≡◌, Some};
ghost use Rattle.workshop.specs.Fields.{name, label, place, message};

use std::error::Error;
use std::fmt;

// The three numbers of a reading, in the order in which they stand.
#[derive(Clone, Copy, PartialEq, Eq, Debug)]
pub enum Field {
    Truck,
    Tyre,
    Kpa,
}

#[derive(Clone, Copy, PartialEq, Eq, Debug)]
pub enum Wrong {
    // The field's name is not where it should be.
    Missing(Field),
    // No decimal number stands there, or one with a leading zero.
    NotANumber(Field),
    // The number is above 65,535.
    TooLarge(Field),
    // Something stands after the last number.
    Trailing,
}

impl Field {
    // What stands before the field's number. One space parts it from the field before.
    pub(crate) fn label(&self) -> &'static str
        ensures { result.now ≡ label self.now }
    {
        match self {
            Field::Truck => "truck=",
            Field::Tyre => " tyre=",
            Field::Kpa => " kpa=",
        }
    }

    // Where in the line the field stands.
    fn place(&self) -> &'static str
        ensures { result.now ≡ place self.now }
    {
        match self {
            Field::Truck => "at the start",
            Field::Tyre => "after the truck",
            Field::Kpa => "after the tyre",
        }
    }
}

// Both are printed by hand: `output` states the text, which is proved.
impl fmt::Display for Field {
    ghost output = { λ f. Some (name f) };

    fn fmt<W: fmt::Write>(&self, f: &mut fmt::Formatter<W>) -> fmt::Result {
        match self {
            Field::Truck => write!(f, "truck"),
            Field::Tyre => write!(f, "tyre"),
            Field::Kpa => write!(f, "kpa"),
        }
    }
}

impl fmt::Display for Wrong {
    ghost output = { λ w. Some (message w) };

    fn fmt<W: fmt::Write>(&self, f: &mut fmt::Formatter<W>) -> fmt::Result {
        match self {
            Wrong::Missing(field) => write!(f, "expected '{}' {}", field.label(), field.place()),
            Wrong::NotANumber(field) => write!(f, "{field}: no decimal number, or a leading zero"),
            Wrong::TooLarge(field) => write!(f, "{field}: the number is above 65535"),
            Wrong::Trailing => write!(f, "text after the last number"),
        }
    }
}

impl Error for Wrong {}
