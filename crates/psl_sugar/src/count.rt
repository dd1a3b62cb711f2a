ghost use Rattle.std.specs.Prelude.{◌≡◌};
ghost use Rattle.psl_sugar.specs.Counting.{is_zero};

/// How often a sequence or an occurrence is repeated (IEEE 1850, clause 6.1).
#[derive(Clone, Copy, Debug, PartialEq, Eq)]
pub enum Count {
    /// `k`: so often.
    Times(u64),
    /// `i:j`: from the first number on up to the second.
    Between(u64, u64),
    /// `i:inf`: at least so often.
    AtLeast(u64),
}

impl Count {
    /// Whether the count asks for no repetition at all, so that `r[*count]` is the empty sequence
    /// whatever `r` is.
    pub fn is_zero(self) -> bool
        ensures { result ≡ is_zero self }
    {
        match self {
            Count::Times(count) => count == 0,
            Count::Between(low, high) => low == 0 && high == 0,
            Count::AtLeast(_) => false,
        }
    }
}
