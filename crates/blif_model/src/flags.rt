/// What the lines before a line have said of its form.
#[derive(Clone, Copy, Debug)]
pub struct Flags {
    /// How many inputs the table has whose rows may follow.
    pub width: Option<usize>,
    /// A command stood before.
    pub begun: bool,
    /// A `.model` stood before.
    pub titled: bool,
    /// An `.end` stood before.
    pub ended: bool,
}
