//! The product of a netlist with an alternating automaton: its joint states as one circuit, the formulas that look for
//! an open path of a window or for states by clauses over their bits, and the path that a model of one stands for.
#![tactic(auto)]

mod askers;
mod asking;
mod bits;
mod circuit;
mod cone;
mod drivers;
mod each;
mod evaluating;
mod facts;
mod found;
mod guards;
mod joined;
mod keeping;
mod kept;
mod literals;
mod making;
mod marking;
mod meeting;
mod missing;
mod model_state;
mod neighbours;
mod one_position;
mod own_bits;
mod parts;
mod path;
mod product;
mod queries;
mod reach_queries;
mod reaching;
mod reading;
mod slice;
mod sliced;
mod starts;
mod state;
mod step;
mod support;

pub use joined::Joint;
pub use making::joint;
pub use slice::Slice;
