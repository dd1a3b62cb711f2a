//! Reads formulas in the DIMACS format, `p cnf VARIABLES CLAUSES` and the clauses behind it.
#![tactic(auto)]

mod fault;
mod header;
mod reading;
mod values;
mod words;

pub use fault::DimacsFault;
pub use reading::read_dimacs;
