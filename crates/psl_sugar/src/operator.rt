/// Whether an operator asks that the word goes on for as long as it needs (IEEE 1850, clause 6.2).
#[derive(Clone, Copy, Debug, PartialEq, Eq)]
pub enum Strength {
    /// The operator with `!`.
    Strong,
    /// The operator without `!`.
    Weak,
}

/// Which numbers of a range a property is asked of.
#[derive(Clone, Copy, Debug, PartialEq, Eq)]
pub enum Quantifier {
    /// Each of them, as in `next_a` and `next_event_a`.
    All,
    /// At least one of them, as in `next_e` and `next_event_e`.
    Exists,
}

/// The range of a next form: the numbers from `low` to `high`, and of which of them a property is asked.
#[derive(Clone, Copy, Debug, PartialEq, Eq)]
pub struct Range {
    pub quantifier: Quantifier,
    pub low: u64,
    pub high: u64,
}
