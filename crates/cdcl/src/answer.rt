// What the solver answers.
use clauses::Log;
use psl_base::Bits;

/// The words of a log past which the solver stops.
pub const FULL_LOG_WORDS: usize = 100_000_000;

/// What the solver finds out about a formula.
#[derive(Debug, Drop)]
pub enum Answer {
    /// A model: a value for each variable, from the variable 1 on.
    Model(Bits),
    /// The formula has no model: the log refutes it.
    Refuted(Log),
    /// The log has as many lemmas as there are steps, and the formula is undecided.
    Spent(Log),
    /// The words of the log passed `FULL_LOG_WORDS`, and the formula is undecided.
    LogFull(Log),
}
