//! Traces: the first valuations of a run of a netlist, written as a recording (a value change dump, IEEE 1364, clause 18),
//! and the law that it is read as the run's word.
#![tactic(auto)]

mod codes;
mod laws;
mod lengths;
mod names;
mod printed;
mod valuations;
mod vectors;
mod writing;

pub use laws::{examples_law, read_law, singles_law, vectors_law, word_law};
pub use lengths::trace_length;
pub use names::{first_places, first_text};
pub use vectors::{Vector, Vectors, vector_names, write_vectors};
pub use writing::write_trace;
