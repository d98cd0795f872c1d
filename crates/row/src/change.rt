// A change: one store, delete or wipe on one server. Whatever has to stand up to a cut is made as
// a list of changes, and a budget says how many of them are made.
use geometry::key::Key;
use geometry::sizes::Fragment;
use std::error::Error;
use std::fmt;

pub mod make;

#[derive(Clone, Copy)]
pub enum Change {
    Store(usize, Key, Fragment),
    Delete(usize, Key),
    Wipe(usize),
}

// The budget did not reach to the last change.
#[derive(Clone, Copy, PartialEq, Eq, Debug)]
pub struct Cut;

// By hand: no derive of std's prints, and the crate takes in no other crate for it.
impl fmt::Display for Cut {
    fn fmt<W: fmt::Write>(&self, f: &mut fmt::Formatter<W>) -> fmt::Result {
        write!(f, "the budget did not reach to the last change")
    }
}

impl Error for Cut {}
