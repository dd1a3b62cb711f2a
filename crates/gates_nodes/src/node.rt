use psl_base::Items;

/// A node. Its literal is a variable: behind so many given variables comes one that is true, and then one for each node
/// in the order of their numbers. A node names literals of earlier variables.
#[derive(Clone, Copy, Debug, PartialEq, Eq)]
pub enum Node {
    /// Its value is free. The numbers say what it stands for: a frame, counted from 0, and a bit of it.
    Free(u32, u32),
    /// The conjunction of two literals.
    And(i32, i32),
    /// What a cover says of four literals; the cover is named by its place in a list, counted from 0.
    Lut(u32, i32, i32, i32, i32),
}

/// Nodes in the order of their numbers.
pub type Nodes = Items<Node>;
