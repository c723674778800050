// Why a case has no answer.
use refusal::Refusal;
use std::alloc::{AllocError, AllocFailed};

#[derive(Drop)]
pub enum Fault {
    // Its words are not those that its call takes.
    Unreadable,
    Refused(Refusal),
    OutOfMemory,
}

impl From<Refusal> for Fault {
    fn from(refusal: Refusal) -> Fault {
        Fault::Refused(refusal)
    }
}

impl From<AllocError> for Fault {
    fn from(_error: AllocError) -> Fault {
        Fault::OutOfMemory
    }
}

impl<T: Drop> From<AllocFailed<T>> for Fault {
    fn from(_error: AllocFailed<T>) -> Fault {
        Fault::OutOfMemory
    }
}
