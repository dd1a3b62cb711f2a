//! The lines of a certificate, read and checked one by one: its header, its clauses where it has them, and a section
//! against its formula.
#![tactic(auto)]

mod clause_lines;
mod entries;
mod fields;
mod forms;
mod header;
mod next;
mod numbers;
mod reading;
mod section;

pub use clause_lines::read_clauses;
pub use header::read_header;
pub use reading::{Reading, Refusal};
pub use section::check_section;
