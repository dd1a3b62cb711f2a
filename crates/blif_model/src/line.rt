ghost use Rattle.std.specs.Prelude.{◌≡◌};

use blif_flattening::Line;
use netlist::{Init, Rows};
use psl_base::Numbers;

/// The rows of a table.
#[derive(Drop)]
pub struct TableRows {
    /// The rows, each with a mark for each input.
    pub rows: Rows,
    /// The output where some row fits; true where there is no row.
    pub value: bool,
    /// How many bytes of the text stand before the name of the output.
    pub output_at: u32,
}

/// What a line of a model says.
#[derive(Drop)]
pub enum LineKind {
    /// It lists inputs.
    Inputs,
    /// It lists outputs.
    Outputs,
    /// It is a latch: its names are what it reads and what it drives.
    Latch(Init),
    /// It is a table: its names are its inputs in order, and then its output.
    Table(TableRows),
}

/// A line of a model, with the numbers of its names.
#[derive(Drop)]
pub struct ModelLine {
    /// The numbers of the names that it mentions, in order.
    pub mentions: Numbers,
    /// What it says of them.
    pub kind: LineKind,
}

impl Line for ModelLine {
    ghost mentions = { λ line. line.mentions };

    fn mentions(&self) -> &[u32] {
        self.mentions.as_slice()
    }
}
