/// What an unknown bit reads as: one whose letter says neither 0 nor 1, or whose signal was not given a value yet.
#[derive(Clone, Copy, Debug, PartialEq, Eq)]
pub enum Unknown {
    /// As 0.
    Zero,

    /// As 1.
    One,

    /// As 0, by one who refuses a recording where an unknown bit is asked for.
    Refuse,
}
