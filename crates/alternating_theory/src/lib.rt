//! Alternating automata of formulas without clocks: the construction, the value on finite words,
//! acceptance of words with a loop, and the laws that tie both to satisfaction. A word with a loop is
//! read as a course: places that each have a letter and a next place. It holds definitions and lemmas;
//! its functions state laws.
#![tactic(auto)]

mod course_laws;
mod laws;
mod loop_laws;

pub use course_laws::{abort_is_cut_at_first, satisfaction_is_stable, word_is_read};
pub use laws::{
    automaton_means_formula, dual_is_negation, merging_keeps_values, one_pass_fits, worked_sizes,
};
pub use loop_laws::{automaton_accepts_formula, merging_keeps_loops};
