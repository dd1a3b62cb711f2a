// The trail as the analysis reads it.
ghost use Rattle.std.specs.Prelude.{ℕ, ◌<◌, ◌≤◌, length, slice_index};
ghost use Rattle.std.specs.List.Sorted.{IsNonDecreasing};

/// A trail: the true literals in the order in which they came to be. A place is an index of one of them.
#[derive(Clone, Copy, Drop)]
pub struct TrailView<'a> {
    /// The true literals.
    pub literals: &'a [u32],
    /// By place: the number of the clause that the literal follows from, 0 for a decision.
    pub reasons: &'a [u32],
    /// By variable: the place of its literal, where one is true.
    pub places: &'a [u32],
    /// How many literals are of level 0.
    pub fixed: usize,
    /// Where the current level begins.
    pub start: usize,
}

/// The level of a place: how many levels above the lowest begin at it or below. Each of the limits is the place where
/// one of them begins.
pub fn level_of(place: u32, limits: &[u32]) -> usize
    requires { IsNonDecreasing limits.now }
    ensures within { result ≤ length limits.now }
    ensures at { (level : ℕ) → level < result → slice_index limits.now level ≤ place }
    ensures above { (level : ℕ) → result ≤ level → level < length limits.now → place < slice_index limits.now level }
{
    limits.partition_point(|limit| *limit <= place)
}
