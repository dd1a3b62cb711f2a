/// A limit of a statement: how deep its brackets may be nested, or how many tokens it may have.
#[derive(Clone, Copy, Debug, PartialEq, Eq)]
pub enum Limit {
    /// No more than 64 brackets are open at once. `(` and `{` open one, `)` and `}` close one.
    Nesting,
    /// No more than 2,048 tokens.
    Length,
}

/// A token that passes a limit of its statement.
#[derive(Clone, Copy, Debug, PartialEq, Eq)]
pub struct Passed {
    /// How many tokens of the text stand before it.
    pub token: usize,
    /// The limit that it passes.
    pub limit: Limit,
}
