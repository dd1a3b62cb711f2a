/// What a name of a model is to those who place the model.
#[derive(Clone, Copy, Debug, PartialEq, Eq)]
pub enum Role {
    /// It is an input.
    Input,
    /// It is an output and no input.
    Output,
    /// It stands in a `.clock`, and is neither.
    Clock,
}
