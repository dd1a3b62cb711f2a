//! What a search for a run of a netlist whose word an automaton accepts looks for, and numbers along the places of a
//! word that say that it is accepted. It holds definitions and lemmas; its one function states a law.
#![tactic(auto)]

mod laws;

pub use laws::numbers_law;
