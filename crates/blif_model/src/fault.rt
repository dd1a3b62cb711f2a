ghost use Rattle.std.specs.Prelude.{◌≡◌};

use psl_base::{NoMemory, Place, ReadAllFault};
use thiserror::Error;

/// Why a netlist was not read. A fault of the text has the place of its word. Of several in one line the first in it is
/// named, and of several at one word the one that stands first here. What models say of each other, and of their names as
/// a whole, is looked for where no line has a fault: `UnknownModel`, `BadConnection`, `ModelRecursion`, `TooDeep`,
/// `DrivenBySubckt`, `Undriven`, `TooLarge` of a hierarchy, and `CombinationalCycle`, in this order.
#[derive(Clone, Copy, Debug, PartialEq, Eq, Error)]
pub enum BlifFault {
    /// The first word of a line begins with a dot and is no command.
    #[error("unknown command")]
    UnknownCommand(Place),

    /// A `.model` without just one name, or a first one behind another command.
    #[error("`.model` is out of form")]
    BadModel(Place),

    /// A line that is no command and no row of the table above it, or a `.names` without a name. The place is that of
    /// the first word.
    #[error("no row of a table")]
    BadRow(Place),

    /// The output of a row differs from that of the table's first row.
    #[error("rows of 0 and of 1 in one table")]
    MixedRows(Place),

    /// A `.latch` whose words are out of form. The place is that of the `.latch`.
    #[error("`.latch` is out of form")]
    BadLatch(Place),

    /// A latch that is level sensitive or asynchronous: `ah`, `al` or `as`.
    #[error("a latch of a type that is not read")]
    LatchType(Place),

    /// The type and the control of a latch differ from those of an earlier one. The place is that of the type.
    #[error("latches of two clocks")]
    TwoClocks(Place),

    /// An input, a table's output or a latch's output that is one already.
    #[error("a signal is driven twice")]
    DrivenTwice(Place),

    /// The first use of a name that nothing drives: its word, or the connection of an input.
    #[error("a signal is not driven")]
    Undriven(Place),

    /// The output of the first table that depends on itself through tables.
    #[error("tables depend on themselves")]
    CombinationalCycle(Place),

    /// A backslash behind which the text ends.
    #[error("the text ends behind a backslash")]
    MissingEnd(Place),

    /// A further `.model` with the name of an earlier one, or a line behind `.end` that begins no model.
    #[error("a second model")]
    SecondModel(Place),

    /// The name of a signal past the limit, which is 65,536. In a hierarchy, the name of the model in the first `.subckt`
    /// of the top with which there are more signals, or more instances.
    #[error("too many signals")]
    TooLarge(Place),

    /// A `.subckt` of a model that the file does not have: its name, or the `.subckt` where it has none.
    #[error("no such model")]
    UnknownModel(Place),

    /// A word of a `.subckt` that is no connection, or connects what its model does not offer, or what a word before it
    /// connects; or the name of the model, where one of its inputs is not connected.
    #[error("models are not connected")]
    BadConnection(Place),

    /// A `.subckt` of the model in which it stands, or of one that contains that model: the name of the model.
    #[error("a model contains itself")]
    ModelRecursion(Place),

    /// A connection of an output with a name that an input, a table, a latch or an earlier connection drives.
    #[error("a connection drives a signal twice")]
    DrivenBySubckt(Place),

    /// A `.subckt` of a model of depth 64 or more: the name of the model. A model without a `.subckt` has depth 1, any
    /// other one more than the deepest that it places.
    #[error("models are placed too deep")]
    TooDeep(Place),

    /// The file is longer than 268,435,456 bytes.
    #[error("the file is too long")]
    TooLong,

    /// The shelf failed and has counted the fault, or it tells that the file is not there.
    #[error("the file cannot be read")]
    ReadFault,

    /// The allocator refused memory.
    #[error("out of memory")]
    NoMemory,
}

impl From<NoMemory> for BlifFault {
    ghost use Rattle.blif_model.specs.declared.fault.BlifFault.TheVariants.{NoMemory as MemoryFault};

    ghost from_gives = { λ _ fault. fault ≡ MemoryFault };

    fn from(_refused: NoMemory) -> BlifFault {
        BlifFault::NoMemory
    }
}

impl From<ReadAllFault> for BlifFault {
    ghost use Rattle.std.specs.Prelude.{◌≡◌};
    ghost use Rattle.blif_model.specs.Faults.{fault_of};

    ghost from_gives = { λ fault new. new ≡ fault_of fault };

    fn from(fault: ReadAllFault) -> BlifFault {
        match fault {
            ReadAllFault::ReadFault => BlifFault::ReadFault,
            ReadAllFault::TooLong => BlifFault::TooLong,
            ReadAllFault::NoMemory => BlifFault::NoMemory,
        }
    }
}
