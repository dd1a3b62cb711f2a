use crate::recording::Recorded;
use prover::Finding;
use psl_base::{Items, Text};
use psl_tree::Kind;

/// What is found out of a directive: an assertion or a cover.
#[derive(Debug, Drop)]
pub struct FindingEntry {
    pub kind: Kind,
    /// Its number in the text, counted from 1.
    pub number: u32,
    /// Its label, where it has one.
    pub label: Option<Text>,
    pub finding: Finding,
    /// What is recorded of a run that was found, where recordings are wanted.
    pub recorded: Option<Recorded>,
}

/// A finding for each directive of a text that is asked, in order.
pub type Findings = Items<FindingEntry>;
