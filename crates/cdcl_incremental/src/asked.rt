// What the answers to questions are.
use psl_base::{Bits, Items};

/// Literals as signed numbers.
pub type Literals = Items<i32>;

/// The answer to the question whether clauses have a model in which some literals are true.
#[derive(Debug, Drop)]
pub enum Asked {
    /// They have: a value for each variable, from the variable 1 on.
    Model(Bits),
    /// They have none, and none in which just these of the literals are true.
    Refuted(Literals),
    /// That stays undecided: the conflicts are spent, or a bound of what can be stored is reached.
    Spent,
}
