ghost use Rattle.std.specs.Prelude.{◌≡◌};
ghost use Rattle.commands.specs.Rows.{row_of};

use crate::reason::Reason;

/// What is told of a reason.
#[derive(Clone, Copy, Debug, PartialEq, Eq)]
pub struct Row {
    /// What is printed: where it is of a text, its code and its name.
    pub words: &'static [u8],
    /// The status of a run that ends with it.
    pub status: u8,
}

/// The words and the status of each reason, in the order in which these are declared.
const ROWS: [(&[u8], u8); 56] = [
    (b"usage: pslc wave|prove|check|show|gen|replay ARGUMENTS", 2),
    (b"read fault", 3),
    (b"write fault", 4),
    (b"TooLong", 7),
    (b"no memory", 8),
    (b"1 BadByte", 5),
    (b"2 Unended", 5),
    (b"3 NumberTooLarge", 5),
    (b"5 Syntax", 5),
    (b"6 Kind", 5),
    (b"7 UnknownName", 5),
    (b"8 Ambiguous", 5),
    (b"9 DeclaredTwice", 5),
    (b"10 EmptyRange", 5),
    (b"11 ConstantTooWide", 5),
    (b"12 TooLarge", 7),
    (b"13 SereTooLarge", 7),
    (b"14 AutomatonTooLarge", 7),
    (b"15 UnrollTooLarge", 7),
    (b"16 NestedTooDeep", 7),
    (b"17 StatementTooLong", 7),
    (b"18 MissingSignal", 5),
    (b"19 FormulaTooLarge", 7),
    (b"V1 UnknownKeyword", 5),
    (b"V2 MissingEnd", 5),
    (b"V3 BadVar", 5),
    (b"V4 CodeSizeDiffers", 5),
    (b"V5 ScopeNotOpen", 5),
    (b"V6 BadTime", 5),
    (b"V7 TimeFalls", 5),
    (b"V8 CodeNotDeclared", 5),
    (b"V9 BadValue", 5),
    (b"V10 VectorTooLong", 5),
    (b"V11 ChangeBeforeDefinitionsEnd", 5),
    (b"V12 EndsInside", 5),
    (b"V13 TooManySamples", 7),
    (b"V14 TooManySignals", 7),
    (b"V15 UnknownValue", 5),
    (b"B1 UnknownCommand", 5),
    (b"B2 BadModel", 5),
    (b"B3 BadRow", 5),
    (b"B4 MixedRows", 5),
    (b"B5 BadLatch", 5),
    (b"B6 LatchType", 5),
    (b"B7 TwoClocks", 5),
    (b"B8 DrivenTwice", 5),
    (b"B9 Undriven", 5),
    (b"B10 CombinationalCycle", 5),
    (b"B11 MissingEnd", 5),
    (b"B12 SecondModel", 5),
    (b"B13 TooLarge", 7),
    (b"B14 UnknownModel", 5),
    (b"B15 BadConnection", 5),
    (b"B16 ModelRecursion", 5),
    (b"B17 DrivenBySubckt", 5),
    (b"B18 TooDeep", 7),
];

/// The row of a reason.
pub fn row_of(reason: Reason) -> Row
    ensures words { result.words.now ≡ (row_of reason).words }
    ensures status { result.status ≡ (row_of reason).status }
{
    let (words, status) = ROWS[reason as usize];
    Row { words, status }
}
