use psl_base::NoMemory;
use psl_layer_theory::LayerFault;
use psl_lexer::LexFault;
use psl_parser::ParseFault;
use psl_tree::{LimitFault, UnitFault};
use std::alloc::{AllocError, AllocFailed};
use std::{fmt, io};
use vcd_reader::VcdFault;

/// Why the rows of a file are not compared.
#[derive(Debug, Drop)]
pub enum Fault {
    NoMemory,
    /// The file cannot be read, or what is found cannot be printed.
    Device,
    /// A row is not whole or not in its form.
    Row,
    /// A text has more bytes than a row's may have.
    TooLong,
    /// A text or a recording is refused.
    Refused,
}

impl fmt::Display for Fault {
    fn fmt<W: fmt::Write>(&self, f: &mut fmt::Formatter<W>) -> fmt::Result {
        match self {
            Fault::NoMemory => write!(f, "out of memory"),
            Fault::Device => write!(f, "cannot be read"),
            Fault::Row => write!(f, "a row is not whole"),
            Fault::TooLong => write!(f, "a text is too long"),
            Fault::Refused => write!(f, "a text or a recording is refused"),
        }
    }
}

impl From<io::Error> for Fault {
    fn from(_error: io::Error) -> Fault {
        Fault::Device
    }
}

impl From<NoMemory> for Fault {
    fn from(_error: NoMemory) -> Fault {
        Fault::NoMemory
    }
}

impl From<AllocError> for Fault {
    fn from(_error: AllocError) -> Fault {
        Fault::NoMemory
    }
}

impl<T: Drop> From<AllocFailed<T>> for Fault {
    fn from(_error: AllocFailed<T>) -> Fault {
        Fault::NoMemory
    }
}

impl From<LexFault> for Fault {
    fn from(_fault: LexFault) -> Fault {
        Fault::Refused
    }
}

impl From<ParseFault> for Fault {
    fn from(_fault: ParseFault) -> Fault {
        Fault::Refused
    }
}

impl From<LayerFault> for Fault {
    fn from(_fault: LayerFault) -> Fault {
        Fault::Refused
    }
}

impl From<VcdFault> for Fault {
    fn from(_fault: VcdFault) -> Fault {
        Fault::Refused
    }
}

impl From<UnitFault> for Fault {
    fn from(_fault: UnitFault) -> Fault {
        Fault::Refused
    }
}

impl From<LimitFault> for Fault {
    fn from(_fault: LimitFault) -> Fault {
        Fault::Refused
    }
}
