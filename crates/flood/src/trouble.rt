// Why a line isn't done.
use script::Fault;
use std::alloc::{AllocError, AllocFailed};
use std::io;

// It is refused, with nothing changed; or there is no memory for it, or it cannot be answered.
#[derive(Drop)]
pub(crate) enum Trouble {
    Refused(Fault),
    Failed(io::Error),
}

impl From<Fault> for Trouble {
    fn from(fault: Fault) -> Trouble {
        Trouble::Refused(fault)
    }
}

impl From<io::Error> for Trouble {
    fn from(e: io::Error) -> Trouble {
        Trouble::Failed(e)
    }
}

impl From<AllocError> for Trouble {
    fn from(e: AllocError) -> Trouble {
        Trouble::Failed(e.into())
    }
}

impl<T: Drop> From<AllocFailed<T>> for Trouble {
    fn from(_e: AllocFailed<T>) -> Trouble {
        Trouble::Failed(AllocError.into())
    }
}
