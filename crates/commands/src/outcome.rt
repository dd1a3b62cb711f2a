use crate::reason::Reason;
use cert_theory::CertAnswer;
use findings::Findings;
use psl_base::{Items, Place, Text};
use psl_tree::{Kind, Names};
use replay::Replay;
use wave_judge::Verdicts;

/// What a run found out.
#[derive(Debug, Drop)]
pub enum Outcome {
    Nothing,
    /// `wave`: the verdicts on a recording; and where that is asked for, from where on each is settled, with nothing for
    /// those that are neither settled for nor against.
    Wave(Verdicts, Option<Settlements>),
    /// `prove`: a finding for each directive that is asked; the first names of the netlist's inputs and then of its latches' outputs, in
    /// its order, whose values are shown of a run; and the depth and the visits that were asked for.
    Findings {
        findings: Findings,
        columns: Names,
        depth: u32,
        visits: u32,
    },
    /// `check`: the number that was asked for, counted from 1 as directives are, and what is answered to the certificate.
    Checked(u32, CheckedCert),
    /// `show`: what the directives of a text mean.
    Shown(Lines),
    /// `gen`: the seed, how many samples the made recording has, how many bytes its text has, and the
    /// verdicts on it.
    Made(u64, u32, u64, Verdicts),
    /// `replay`: where a recording leaves a netlist, if it does; how many samples it has; and the verdicts on it.
    Replayed(Replay, u32, Verdicts),
}

/// What is answered to a certificate.
#[derive(Clone, Copy, Debug, PartialEq, Eq)]
pub struct CheckedCert {
    /// As what the directive of the number is answered for: a cover as one, and all else, or none, as an assertion.
    pub kind: Kind,
    pub answer: CertAnswer,
}

/// From where on a verdict is settled: no samples that follow can change it.
#[derive(Clone, Copy, Debug, PartialEq, Eq)]
pub enum Settled {
    /// No sample is needed.
    Before,
    /// From this sample on.
    At {
        /// Counted from 0.
        sample: u32,
        /// The sample's time, in units of the recording's time scale.
        time: u64,
        /// The line of the first token that lists this time, counted from 1.
        line: u32,
    },
}

/// From where on verdicts are settled, in their order.
pub type Settlements = Items<Option<Settled>>;

/// What a directive means.
#[derive(Debug, Drop)]
pub struct Line {
    /// Its number in the text, counted from 1.
    pub number: u32,
    pub kind: Kind,
    pub label: Option<Text>,
    /// The canonical text of its formula.
    pub text: Text,
    /// How many obligations its formula counts where its clocks are rewritten away; 2^64 - 1 where it counts more.
    pub obligations: u64,
}

/// What directives mean, in order.
pub type Lines = Items<Line>;

/// A fault, and where it stands if it is a file's.
#[derive(Debug, Drop)]
pub struct Fault {
    pub reason: Reason,
    /// The name of the file that is at fault.
    pub file: Option<Text>,
    /// The place in the file.
    pub place: Option<Place>,
    /// The name of a signal that a recording does not have.
    pub signal: Option<Text>,
}

/// How a run ended: the status of the process, what was found out, and the fault if there was one.
#[derive(Debug, Drop)]
pub struct Report {
    pub status: u8,
    pub outcome: Outcome,
    pub fault: Option<Fault>,
}
