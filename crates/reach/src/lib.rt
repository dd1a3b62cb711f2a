//! Property directed reachability over the joint states of a netlist and an automaton: inductive clauses that keep the
//! bad states out, a path to one, or frames that keep them out for so many steps.
//!
//! Sources: Bradley, SAT-based model checking without unrolling (2011); Een, Mishchenko and Brayton, Efficient
//! implementation of property directed reachability (2011).
#![tactic(auto)]

mod aim;
mod answer;
mod apart;
mod asked_values;
mod asking;
mod bit_places;
mod completing;
mod cones;
mod core_bits;
mod ending;
mod knowing;
mod leading;
mod lifting;
mod machine;
mod pacing;
mod question;
mod quick;
mod reaching;
mod reading;
mod search;
mod side;
mod signal_order;
mod sliced;
mod stepping;
mod table_values;
mod ternary;

pub use answer::{ClauseLists, FrameCount, Frames, Reached};
pub use reach_frames::ReachQuery;
pub use reaching::reach;
pub use search::Search;
