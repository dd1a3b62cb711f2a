/// A placement: the model in which it stands, and its number among the placements there, both counted from 0.
#[derive(Clone, Copy, Debug, PartialEq, Eq)]
pub struct PlacementAt {
    /// The model.
    pub model: usize,
    /// The number of the placement in it.
    pub placement: usize,
}
