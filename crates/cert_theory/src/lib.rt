//! Certificates of assertions that were proved of a netlist: what they hold, their lines, and when a text of lines is
//! one.
#![tactic(auto)]

mod answer;
mod certificate;
mod header;
mod laws;

pub use answer::{CertAnswer, CertReason};
pub use certificate::{Certificate, InductiveCert};
pub use header::{Asked, Field, Form, Header, MOST_VISITS, MOST_WINDOW, Section, Version};
pub use laws::{one_answer_law, one_header_law, shown_law, worked_examples};
