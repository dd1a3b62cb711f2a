use psl_base::{Items, Text};
use psl_tree::Kind;

/// What the three views of a recording say of a directive.
#[derive(Debug, Drop)]
pub struct Verdict {
    /// The directive's number in its text, counted from 1.
    pub number: u32,
    pub kind: Kind,
    pub label: Option<Text>,
    /// On the recording, followed for ever by a letter on which every Boolean holds.
    pub weak: bool,
    /// On the recording alone.
    pub neutral: bool,
    /// On the recording, followed for ever by a letter on which no Boolean holds.
    pub strong: bool,
}

/// A verdict for each directive, in the order of the text.
pub type Verdicts = Items<Verdict>;

/// For each directive, in the order of the text, how many first samples settle its verdict: the least count at which it
/// fails, or holds strongly, whatever samples follow. 0 is before the first sample. None where it holds or is pending.
pub type Points = Items<Option<u32>>;

/// In which of the three views a directive holds. No order between the views is claimed: a level says of the views
/// after its own nothing, and what other recordings say that go on in another way is not told.
#[derive(Clone, Copy, Debug, PartialEq, Eq)]
pub enum Level {
    /// It holds in the strong view: on the recording, followed for ever by a letter on which no Boolean holds.
    HoldsStrongly,
    /// It holds on the recording alone, and not in the strong view.
    Holds,
    /// It holds only in the weak view: on the recording, followed for ever by a letter on which each Boolean holds.
    Pending,
    /// It holds in no view.
    Fails,
}
