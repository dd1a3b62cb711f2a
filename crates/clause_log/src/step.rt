/// What a checker answers to an entry of a log.
#[derive(Clone, Copy, Debug, PartialEq, Eq, Drop)]
pub enum Step {
    /// The lemma passes and is live from then on, or the lemma that the drop names is live no more.
    Passes,
    /// The lemma does not pass.
    Fails,
    /// The lemma passes, but as many lemmas are live as may be.
    TooManyLive,
    /// The drop names no live lemma.
    BadDrop,
}
