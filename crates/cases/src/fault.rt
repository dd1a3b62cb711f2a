use psl_base::NoMemory;
use std::alloc::{AllocError, AllocFailed};
use std::{fmt, io};

/// Why the cases of a file do not run.
#[derive(Debug, Drop)]
pub enum Fault {
    NoMemory,
    /// The file cannot be read, or what is found cannot be printed.
    Device,
    /// A line of the file, counted from 1, that is of no case.
    Line(u64),
    /// A content of a case that is not in form, or stands behind one that is not there.
    Content,
    /// A case without a command.
    Command,
}

impl fmt::Display for Fault {
    fn fmt<W: fmt::Write>(&self, f: &mut fmt::Formatter<W>) -> fmt::Result {
        match self {
            Fault::NoMemory => write!(f, "out of memory"),
            Fault::Device => write!(f, "cannot be read"),
            Fault::Line(number) => write!(f, "line {number} is of no case"),
            Fault::Content => write!(f, "a content is not in form"),
            Fault::Command => write!(f, "a case without a command"),
        }
    }
}

impl From<io::Error> for Fault {
    fn from(_error: io::Error) -> Fault {
        Fault::Device
    }
}

impl From<NoMemory> for Fault {
    fn from(_error: NoMemory) -> Fault {
        Fault::NoMemory
    }
}

impl From<AllocError> for Fault {
    fn from(_error: AllocError) -> Fault {
        Fault::NoMemory
    }
}

impl<T: Drop> From<AllocFailed<T>> for Fault {
    fn from(_error: AllocFailed<T>) -> Fault {
        Fault::NoMemory
    }
}
