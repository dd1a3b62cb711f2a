//! The checker of certificates: whether the text of one shows that each run of a netlist satisfies what is owed of an
//! assertion or of a cover. It stands on nothing of the solver.
#![tactic(auto)]

mod checking;
mod claim;
mod clausal;
mod fault;
mod formulas;
mod lines;
mod soundness;

pub use cert_theory::{CertAnswer, CertReason};
pub use checking::check_cert;
