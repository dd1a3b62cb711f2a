//! Whether a word with a loop satisfies a formula without clocks, by a table of answers for each part of
//! the formula: one answer for each place of the word.
#![tactic(auto)]

mod abort;
mod before;
mod chart;
mod hits;
mod judge;
mod labels;
mod lasts;
mod marking;
mod merged;
mod sequences;
mod until;

pub use judge::satisfies;
