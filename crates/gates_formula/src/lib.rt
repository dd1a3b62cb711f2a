//! The formula of clauses over nodes: the clauses of the nodes that are reached from theirs, and the clauses.
#![tactic(auto)]

mod adding;
mod asked;
mod formulas;
mod implied;
mod wanted;

pub use formulas::formula;
