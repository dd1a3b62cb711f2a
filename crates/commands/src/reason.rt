use psl_base::Place;

/// Why a run ended without an outcome, or could not write it.
#[derive(Clone, Copy, Debug, PartialEq, Eq)]
pub enum Reason {
    /// The words after the program's name are no command.
    Usage,
    /// A file cannot be read, or is not there.
    ReadFault,
    /// A file, the standard output or the standard error cannot be written.
    WriteFault,
    /// A file is longer than 268,435,456 bytes.
    TooLong,
    /// The allocator refused memory.
    NoMemory,

    /// A byte of a text that begins no token.
    BadByte,
    /// A comment, string, escaped name or constant of a text that does not end.
    Unended,
    /// A number of a text past 2^64 - 1, or a constant that does not fit its size.
    NumberTooLarge,
    /// A token with which a text begins no text of the grammar.
    Syntax,
    /// An operand of a kind that is not accepted there.
    Kind,
    /// A path that nothing matches, or an index out of range.
    UnknownName,
    /// A path that several signals match.
    Ambiguous,
    /// A name or the default clock that is declared twice.
    DeclaredTwice,
    /// A range whose second number is below its first, or a count of 0 that begins at 1.
    EmptyRange,
    /// A constant that needs more bits than it is compared with.
    ConstantTooWide,
    /// A directive whose formula has more than 4,096 constructors.
    TooLarge,
    /// A directive, or what is owed of an assertion, with a sequence of more than 1,024 states.
    SereTooLarge,
    /// A directive, or what is owed of an assertion, of more than 2,048 obligations.
    AutomatonTooLarge,
    /// A netlist and an assertion that are too large together to be unrolled to the depth.
    UnrollTooLarge,
    /// The bracket that opens a 65th level in one statement.
    NestedTooDeep,
    /// The 2,049th token of a statement.
    StatementTooLong,
    /// An input or a latch of a netlist that is not one signal of one bit in a recording.
    MissingSignal,
    /// A netlist and an assertion of which a certificate's formula of the base or of the induction is too large.
    FormulaTooLarge,

    /// A keyword of a recording that may not stand there.
    UnknownKeyword,
    /// Something else where `$end` is wanted.
    MissingEnd,
    /// A `$var` or a `$scope` out of form.
    BadVar,
    /// A code that is declared with another size.
    CodeSizeDiffers,
    /// An `$upscope` without a scope.
    ScopeNotOpen,
    /// A `#` without a time.
    BadTime,
    /// A time that is lower than the one before.
    TimeFalls,
    /// A change of a code that is not declared.
    CodeNotDeclared,
    /// What is no change.
    BadValue,
    /// A vector of more values than its signal has bits.
    VectorTooLong,
    /// A change before the definitions end.
    ChangeBeforeDefinitionsEnd,
    /// The end of a recording inside of something.
    EndsInside,
    /// A time past the limit on samples.
    TooManySamples,
    /// A signal past the limit on bits.
    TooManySignals,
    /// The time of the first sample at which a bit is unknown that some directive tests, where that is refused.
    UnknownValue,

    /// The first word of a line begins with a dot and is no command of a netlist.
    UnknownCommand,
    /// A `.model` without just one name, or a first one behind another command.
    BadModel,
    /// A line that is no command and no row of the table above it, or a `.names` without a name.
    BadRow,
    /// The output of a row differs from that of the table's first row.
    MixedRows,
    /// A `.latch` whose words are out of form.
    BadLatch,
    /// A latch that is level sensitive or asynchronous.
    LatchType,
    /// The type and the control of a latch differ from those of an earlier one.
    TwoClocks,
    /// A signal that is driven already.
    DrivenTwice,
    /// The first use of a name that nothing drives.
    Undriven,
    /// The output of the first table that depends on itself through tables.
    CombinationalCycle,
    /// A backslash behind which a netlist ends.
    NetlistMissingEnd,
    /// A further `.model` of one name, or a line behind `.end` that begins no model.
    SecondModel,
    /// The name of a signal of a netlist past the limit on signals, or a `.subckt` with which there are more signals or
    /// instances.
    NetlistTooLarge,
    /// A `.subckt` of a model that the netlist does not have.
    UnknownModel,
    /// A `.subckt` whose connections do not fit its model.
    BadConnection,
    /// A `.subckt` of a model that is or contains the one in which it stands.
    ModelRecursion,
    /// A connection of an output with a name that is driven already.
    DrivenBySubckt,
    /// A `.subckt` of a model that is too deep.
    ModelTooDeep,
}

/// What is said of a fault: why, and where in its file.
#[derive(Clone, Copy, Debug, PartialEq, Eq)]
pub struct Diagnostic {
    pub reason: Reason,
    /// None where no one place of the file is at fault.
    pub place: Option<Place>,
}
