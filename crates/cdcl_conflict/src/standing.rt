// What the analysis knows of a place of the trail.

/// What is known of a place.
#[derive(Clone, Copy, Debug, Drop)]
pub enum Standing {
    /// No clause that was read has the negation of its literal.
    Untouched,
    /// Some clause has it, and the place waits for its turn.
    Waiting,
    /// Its reason was read: the number of the reason is a hint.
    Explained,
    /// The negation of its literal stands in the lemma.
    Kept,
}
