use psl_base::Items;
use psl_lexer::Token;

/// A text, as it was written: its verification units, or its statements (IEEE 1850, clause 7).
#[derive(Debug, Drop)]
pub enum UnitTree {
    Units(Items<VerificationUnit>),
    Statements(Items<Statement>),
}

/// A verification unit: its name, the path in round brackets behind it, and its statements.
#[derive(Debug, Drop)]
pub struct VerificationUnit {
    pub name: Token,
    pub binding: Option<Path>,
    pub statements: Items<Statement>,
}

/// A statement of a text or of a verification unit.
#[derive(Debug, Drop)]
pub enum Statement {
    /// `assert`, `assume` or `cover` with its property, perhaps a label and the string that it
    /// reports.
    Directive {
        label: Option<Token>,
        word: Token,
        property: Expression,
        report: Option<Token>,
    },
    /// `sequence` or `property` with the name that it declares, or `default` with the word `clock`;
    /// and what is declared.
    Declaration {
        word: Token,
        name: Token,
        body: Expression,
    },
}

/// The names of a path, in order; at least one.
pub type Path = Items<Token>;

/// How often a repetition or a next form counts.
#[derive(Debug, Drop)]
pub enum Count {
    /// One number.
    Times(Token),
    /// A number, and another one or `inf`.
    Between(Token, Token),
}

/// A property, a sequence or a Boolean, with the tokens that say what it means (IEEE 1850, clauses 5
/// and 6). An operator stands where it was written: before its operand, between two, or behind one.
#[derive(Debug, Drop)]
pub enum Expression {
    /// `always`, `never`, `next`, `next!`, `eventually!` or `!` before its operand.
    Prefix(Token, Box<Expression>),
    /// An operator between its operands, in braces and outside of them.
    Infix(Box<Expression>, Token, Box<Expression>),
    /// `!` behind its operand.
    Postfix(Box<Expression>, Token),
    /// What stands before a repetition, the token that opens the repetition, and its count.
    Repeated(Box<Expression>, Token, Option<Count>),
    /// What stands before a clock, `@`, and the clock.
    Clocked(Box<Expression>, Token, Box<Expression>),
    /// `(` and what it holds.
    Grouped(Token, Box<Expression>),
    /// `{` and what it holds.
    Braced(Token, Box<Expression>),
    /// A repetition that stands alone: the token that opens it, and its count.
    Repetition(Token, Option<Count>),
    /// A number, a constant, `true` or `false`.
    Literal(Token),
    /// A path, perhaps with the number of an index.
    Signal(Path, Option<Token>),
    /// `posedge` or `negedge` and a path, perhaps with the number of an index.
    Edge(Token, Path, Option<Token>),
    /// A word that begins with `next`, its count and its operand.
    NextTimes(Token, Count, Box<Expression>),
    /// A word that begins with `next_event`, its condition, its count and its operand.
    NextEvent(Token, Box<Expression>, Option<Count>, Box<Expression>),
}
