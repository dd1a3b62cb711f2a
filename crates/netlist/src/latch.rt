use psl_base::Items;

/// The first value of a latch: 0, 1, or either.
#[derive(Clone, Copy, Debug, PartialEq, Eq)]
pub enum Init {
    Zero,
    One,
    Free,
}

/// A latch: at each step its output takes the value that its input had.
#[derive(Clone, Copy, Debug)]
pub struct Latch {
    /// The signal that it reads, counted from 0.
    pub input: u32,
    /// The signal that it drives.
    pub output: u32,
    pub init: Init,
}

/// Latches in the order in which a netlist lists them.
pub type Latches = Items<Latch>;
