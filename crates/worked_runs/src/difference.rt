// What is told of a case.
use std::alloc::{AllocError, AllocFailed};
use std::fmt;
use std::fmt::{Display, Formatter};

/// What a run gave that isn't as it is wanted.
#[derive(Clone, Copy)]
pub(crate) enum Difference {
    Status { given: u8, wanted: u8 },
    Output(&'static str),
    Table(&'static str),
}

/// Why a case can't be run.
#[derive(Clone, Copy)]
pub(crate) enum Unread {
    File(&'static str),
    Memory,
}

impl Display for Difference {
    fn fmt<W: fmt::Write>(&self, f: &mut Formatter<W>) -> fmt::Result {
        match self {
            Difference::Status { given, wanted } => write!(f, "status {given}, not {wanted}"),
            Difference::Output(file) => write!(f, "{file} differs"),
            Difference::Table(file) => write!(f, "{file} is changed"),
        }
    }
}

impl Display for Unread {
    fn fmt<W: fmt::Write>(&self, f: &mut Formatter<W>) -> fmt::Result {
        match self {
            Unread::File(file) => write!(f, "{file} can't be read"),
            Unread::Memory => write!(f, "no memory"),
        }
    }
}

impl From<AllocError> for Unread {
    fn from(_: AllocError) -> Self {
        Unread::Memory
    }
}

impl<T: Drop> From<AllocFailed<T>> for Unread {
    fn from(_: AllocFailed<T>) -> Self {
        Unread::Memory
    }
}
