//! Hierarchies of models, and how they are flattened.
//!
//! A model has names, numbered from 0, and lists lines of its own, which mention names, and placements of other models,
//! which connect formals of the model that is placed with names of the one that places it. The first model of a list is
//! the top, and an instance is a path of placements from it.
#![tactic(auto)]

mod cells;
mod hierarchy;
mod instance;
mod laws;
mod listing;
mod model;
mod walk;

pub use hierarchy::{Flat, flatten};
pub use laws::unfolding_is_one_to_one;
pub use listing::FlatInstance;
pub use model::{Connection, DEEPEST, Item, Line, Model, Placement, Signal};
pub use psl_base::NoMemory;
pub use walk::FlatLine;
