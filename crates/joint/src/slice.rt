use psl_base::Bits;

/// Which signals a query asks about: for each signal, by its number, whether it is kept in the valuation, whether it is
/// kept in the valuation before, and whether an edge of it is tested.
#[derive(Debug, Drop)]
pub struct Slice {
    /// The signals that are kept in the valuation.
    pub now: Bits,
    /// The signals that are kept in the valuation before.
    pub before: Bits,
    /// The signals of which an edge is tested.
    pub tested: Bits,
}
