// Why a call ends before its answer.
use rack_model::fault::{Cause, Fault, Place};
use std::alloc::{AllocError, AllocFailed};

#[derive(Drop)]
pub(crate) enum Stop {
    Refused(Fault),
    Cut,
    NoMemory,
}

impl From<AllocError> for Stop {
    fn from(_error: AllocError) -> Stop {
        Stop::NoMemory
    }
}

impl<T: Drop> From<AllocFailed<T>> for Stop {
    fn from(_error: AllocFailed<T>) -> Stop {
        Stop::NoMemory
    }
}

pub(crate) fn refused(cause: Cause, place: Place) -> Stop {
    Stop::Refused(Fault { cause, place })
}
