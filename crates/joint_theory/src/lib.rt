//! The product of a netlist with an alternating automaton: joint states, their neighbours, the open paths of a window,
//! and what follows where there are none. It holds types, definitions and lemmas; its functions state laws.
#![tactic(auto)]

mod laws;
mod path;

pub use laws::{
    inductive_law, query_law, reach_law, size_law, slice_law, soundness_law, window_law,
};
pub use path::{JointPath, JointState, JointStates, Places};
