//! The gates of what the positions of a run say, added one behind another: no tree of terms is ever in memory.
#![tactic(auto)]

mod booleans;
mod builder;
mod combinations;
mod conjunctions;
mod held;
mod joining;
mod laws;
mod netlists;
mod numbers;
mod position;
mod starts;
mod tables;

pub use booleans::add_boolean;
pub use builder::{Builder, negated};
pub use combinations::{Owing, add_positive};
pub use conjunctions::add_all;
pub use held::Held;
pub use laws::{automaton_law, netlist_law};
pub use netlists::{add_moves, add_tables, add_tables_before};
pub use numbers::add_at_most;
pub use position::Position;
pub use starts::first_literals;
