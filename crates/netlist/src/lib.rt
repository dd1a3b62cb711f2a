//! Netlists: signals of one bit that inputs, latches and tables drive, what they are at one moment, and the words that
//! their runs stand for.
#![tactic(auto)]

mod checking;
mod evaluation;
mod latch;
mod laws;
mod netlist;
mod rows;
mod run;
mod table;
mod word;

pub use latch::{Init, Latch, Latches};
pub use laws::{next_valuation_law, one_valuation_law, soundness_law};
pub use netlist::Netlist;
pub use rows::{Mark, Rows};
pub use run::{Run, Valuations};
pub use table::{Signals, Table, Tables};
