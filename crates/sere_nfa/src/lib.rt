//! Sequences as automata: each sequence without a clock becomes an automaton that accepts exactly
//! the lists of letters that satisfy it tightly.
#![tactic(auto)]

mod alive;
mod build;
mod edge;
mod few;
mod marking;
mod nfa;
mod part;
mod product;
mod sources;
mod state;

pub use edge::{Edges, NfaEdge, States};
pub use few::Few;
pub use marking::Marking;
pub use nfa::{Nfa, NfaFault, of};
