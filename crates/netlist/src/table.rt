use crate::Rows;
use psl_base::Items;

/// Numbers of signals, counted from 0.
pub type Signals = Items<u32>;

/// A table: its output has one value where some row fits its inputs, and else the other.
#[derive(Debug, Drop)]
pub struct Table {
    /// The signals that it reads.
    pub inputs: Signals,
    /// The signal that it drives.
    pub output: u32,
    pub rows: Rows,
    /// The output where some row fits; true where there is no row, so that such a table is 0.
    pub value: bool,
}

/// Tables in the order in which a netlist lists them.
pub type Tables = Items<Table>;
