// How a run ended.
ghost use Rattle.std.specs.Prelude.{◌≡◌};

use cdcl::Answer;
use psl_base::{NoMemory, ReadAllFault};
use sat_dimacs::DimacsFault;

/// Why nothing was found out, or why it could not be told.
#[derive(Clone, Copy, Debug, PartialEq, Eq, Drop)]
pub enum Fault {
    /// The words are not those of the command.
    Usage,
    /// The file of the formula fails, or is not there.
    CannotRead,
    /// The file of the formula is longer than 268,435,456 bytes.
    TooLong,
    /// The file stands for no formula.
    Format(DimacsFault),
    /// The file of the log fails.
    CannotWrite,
    /// The standard output or the standard error fails.
    CannotPrint,
    /// The allocator refused memory.
    NoMemory,
}

impl From<NoMemory> for Fault {
    ghost use Rattle.sat_command.specs.declared.report.Fault.{Fault};

    ghost from_gives = { λ refused fault. fault ≡ Fault.NoMemory };

    fn from(_refused: NoMemory) -> Fault {
        Fault::NoMemory
    }
}

impl From<ReadAllFault> for Fault {
    ghost use Rattle.sat_command.specs.Reading.{fault_of_reading};

    ghost from_gives = { λ reading fault. fault ≡ fault_of_reading reading };

    fn from(reading: ReadAllFault) -> Fault {
        match reading {
            ReadAllFault::ReadFault => Fault::CannotRead,
            ReadAllFault::TooLong => Fault::TooLong,
            ReadAllFault::NoMemory => Fault::NoMemory,
        }
    }
}

/// How a run ended.
#[derive(Debug, Drop)]
pub struct Report {
    /// 10 for a model, 20 for a refutation, 0 where the formula is undecided, and for a fault 2 to 5, 7 or 8.
    pub status: u8,
    /// What was found out, also where it could not be told.
    pub answer: Option<Answer>,
    pub fault: Option<Fault>,
}
