//! The texts of certificates, and that none of their lines is refused where the logs refute the formulas.
#![tactic(auto)]

mod inductive;
mod laws;
mod lines;
mod live;
mod printing;

pub use inductive::print_inductive;
pub use laws::{inductive_law, printed_law, worked_example};
pub use printing::{print_cert, print_cert_1};
