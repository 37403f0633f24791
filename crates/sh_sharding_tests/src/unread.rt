use sh_base::Mem;
use std::alloc::{AllocError, AllocFailed};
use thiserror::Error;

/// Why an example isn't there.
#[derive(Debug, Drop, Error)]
pub enum Unread {
    /// What is wrong with its text, or the rule that its sharding breaks.
    #[error("{0}")]
    Text(&'static str),
    /// Memory is wanting.
    #[error("no memory")]
    Mem,
}

impl From<Mem> for Unread {
    fn from(_: Mem) -> Unread {
        Unread::Mem
    }
}

impl From<AllocError> for Unread {
    fn from(_: AllocError) -> Unread {
        Unread::Mem
    }
}

impl<T: Drop> From<AllocFailed<T>> for Unread {
    fn from(_: AllocFailed<T>) -> Unread {
        Unread::Mem
    }
}
