//! Clause logs and clauses as lines of text, and the numbers and literals of such lines.
#![tactic(auto)]

mod fault;
mod laws;
mod lines;
mod numbers;
mod printing;
mod reading;
mod words;

pub use fault::{LogFault, MOST_READ_WORDS};
pub use laws::one_log_law;
pub use lines::{LineRoom, next_line, read_clause, read_entry};
pub use numbers::{literal, number};
pub use printing::{add_clause_line, add_log, add_log2, print_log, print_log2};
pub use reading::{read_log, read_log2};
