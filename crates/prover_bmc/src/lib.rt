//! Paths of a netlist that lead to a violation when the inputs are held behind them, sought one valuation after the
//! other. What is found is a hint, and judged by its user.
//!
//! Sources: Biere, Cimatti, Clarke and Zhu, Symbolic model checking without BDDs (1999); Een and Sorensson, Temporal
//! induction by incremental SAT solving (2003).
#![tactic(auto)]

mod apart;
mod chain;
mod choices;
mod debts;
mod dues;
mod frames;
mod growing;
mod inputs_alone;
mod joining;
mod link;
mod listed;
mod nodes;
mod opens;
mod path;
mod pending;
mod plan;
mod prefixes;
mod solver;
mod step;
mod support;
mod tested;

pub use opens::{Likely, Opened, Opens};
pub use prefixes::{Prefixes, Told};
