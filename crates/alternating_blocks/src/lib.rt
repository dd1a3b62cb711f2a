//! The values of an alternating automaton at 64 letters at a time. A word of 64 bits for each obligation and view
//! holds its values, and words that meet the equations of all obligations are the values, however they were found.
#![tactic(auto)]

mod equations;
mod find;
mod letters;
mod order;
mod plan;
mod step;
mod values;
mod words;

pub use letters::Letters;
pub use step::Blocks;
pub use values::Values;
