/// What a log shows of a formula.
#[derive(Clone, Copy, Debug, PartialEq, Eq, Drop)]
pub enum LogAnswer {
    /// Every lemma passes and the last is empty: the formula has no model.
    Refutes,
    /// The first lemma that does not pass is this one. Lemmas are counted from 1, and drops are not counted.
    Fails(u32),
    /// Every lemma passes, and none is empty.
    NoEmpty,
}
