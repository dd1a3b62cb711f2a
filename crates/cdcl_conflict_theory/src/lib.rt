//! What the analysis of a conflict rests on: when reasons and a conflict, in the order of propagation, are hints by which
//! a lemma passes that adds a propagation. It holds definitions and lemmas; its functions state laws.
#![tactic(auto)]

mod laws;

pub use laws::{learning_law, refuting_law, returning_law};
