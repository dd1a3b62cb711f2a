use crate::claim::Claim;
use crate::task::Task;

/// What is to be proved, with what is owed and the automaton of its violations.
#[derive(Clone, Copy)]
pub(crate) struct Prover<'a> {
    pub task: Task<'a>,
    pub claim: &'a Claim,
}
