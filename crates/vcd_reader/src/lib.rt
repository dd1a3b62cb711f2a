//! Recordings: the text of a value change dump (IEEE 1364, clause 18), read into the values that each
//! signal has at each sample.
#![tactic(auto)]

mod body;
mod changes;
mod codes;
mod definitions;
mod fault;
mod first_unknown;
mod laws;
mod names;
mod ranges;
mod reading;
mod recording;
mod sections;
mod shape;
mod signal;
mod unknown;

pub use body::SAMPLE_LIMIT;
pub use fault::VcdFault;
pub use laws::{
    first_fault_law, one_meaning_law, places_law, running_law, times_law, unknown_law, values_law,
};
pub use psl_base::Place;
pub use reading::{read_bytes, read_faultless, read_vcd};
pub use recording::Recording;
pub use unknown::Unknown;
