//! Whether a clause log refutes a formula.
#![tactic(auto)]

mod answer;
mod check;
mod checker;
mod codes;
mod hints;
mod left;
mod literal_set;
mod live;
mod step;

pub use answer::LogAnswer;
pub use check::check_log;
pub use checker::{LogChecker, MOST_LEMMAS};
pub use psl_base::NoMemory;
pub use step::Step;
