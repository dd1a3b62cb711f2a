//! The commands of `pslc`: what the words after the program's name ask for is read, judged and printed by one
//! call, `run`, whose clauses are what a run promises. `report` is the text of what a run found out.
#![tactic(auto)]

mod check;
mod checked;
mod directives;
mod faults;
mod finish;
mod generated;
mod inputs;
mod laws;
mod outcome;
mod printing;
mod progress;
mod prove;
mod reason;
mod replayed;
mod rows;
mod saves;
mod settled;
mod show;
mod shown;
mod subject;
mod top;
mod wave;

pub use laws::{one_refusal, written_law};
pub use outcome::{CheckedCert, Fault, Line, Lines, Outcome, Report, Settled, Settlements};
pub use printing::report;
pub use reason::Reason;
pub use top::run;
