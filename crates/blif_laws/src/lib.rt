//! Laws of netlists of several models: where models fit together, each name has just one driver, their flat netlist is
//! sound, and its valuations are the instance trees of the hierarchy. No code runs.
#![tactic(auto)]

mod laws;

pub use laws::{
    bounds_law, driving_law, naming_law, one_hierarchy_law, placing_law, soundness_law,
    unfolding_law, worked_trees,
};
