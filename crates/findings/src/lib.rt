//! What is found out of the assertions of a text on a netlist, and of its covers where these are to be asked: the first
//! of them that is too large, and else a finding for each.
#![tactic(auto)]

mod entry;
mod laws;
mod names;
mod proving;
mod recording;
mod sizes;

pub use entry::{FindingEntry, Findings};
pub use laws::{held_letters_law, passed_law};
pub use names::columns;
pub use proving::prove_all;
pub use recording::{Recorded, Recordings};
pub use sizes::check_all;
