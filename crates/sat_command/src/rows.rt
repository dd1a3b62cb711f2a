// What is printed of each fault, and the status of a run that ends with it.
ghost use Rattle.std.specs.Prelude.{◌≡◌};
ghost use Rattle.sat_command.specs.Rows as spec;

use crate::Fault;
use sat_dimacs::DimacsFault;

/// What is told of a fault.
#[derive(Clone, Copy, Drop)]
pub(crate) struct Row {
    /// What is printed: where it is of a text, its code and its name.
    pub(crate) words: &'static [u8],
    /// The status of a run that ends with it.
    pub(crate) status: u8,
}

/// The row of a fault.
pub(crate) fn row_of(fault: Fault) -> Row
    ensures words { result.words.now ≡ (spec.row_of fault).words }
    ensures status { result.status ≡ (spec.row_of fault).status }
{
    match fault {
        Fault::Usage => told(b"usage: sat FILE.cnf [--steps N] [--log FILE]", 2),
        Fault::CannotRead => told(b"read fault", 3),
        Fault::TooLong => told(b"TooLong", 7),
        Fault::Format(fault) => text_row(fault),
        Fault::CannotWrite | Fault::CannotPrint => told(b"write fault", 4),
        Fault::NoMemory => told(b"no memory", 8),
    }
}

/// The row of a fault of a text.
fn text_row(fault: DimacsFault) -> Row
    ensures words { result.words.now ≡ (spec.text_row fault).words }
    ensures status { result.status ≡ (spec.text_row fault).status }
{
    match fault {
        DimacsFault::NoHeader(_) => told(b"F1 NoHeader", 5),
        DimacsFault::BadHeader(_) => told(b"F2 BadHeader", 5),
        DimacsFault::SecondHeader(_) => told(b"F3 SecondHeader", 5),
        DimacsFault::NotALiteral(_) => told(b"F4 NotALiteral", 5),
        DimacsFault::LiteralTooLarge(_) => told(b"F5 LiteralTooLarge", 5),
        DimacsFault::MoreClauses(_) => told(b"F6 MoreClauses", 5),
        DimacsFault::FewerClauses(_) => told(b"F7 FewerClauses", 5),
        DimacsFault::OpenClause(_) => told(b"F8 OpenClause", 5),
        DimacsFault::TooLarge(_) => told(b"F9 TooLarge", 7),
        DimacsFault::NoMemory => told(b"no memory", 8),
    }
}

fn told(words: &'static [u8], status: u8) -> Row
    ensures words { result.words.now ≡ words.now }
    ensures status { result.status ≡ status }
{
    Row { words, status }
}
