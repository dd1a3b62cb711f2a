//! The order in which tables can be computed, or the first table on a combinational cycle.
//!
//! A table reads signals, and a signal may be driven by a table. That makes a dependency graph. `order_of` gives a
//! topological order of it, in which each table stands after all those that it reads; where there is none, it names
//! the table with the lowest number that depends on itself. It takes time linear in the number of tables and inputs.
//! `order_tables` gives it for the tables of a netlist.
#![tactic(auto)]

mod laws;
mod order;
mod search;
mod tables;
mod wiring;

pub use laws::cycle_law;
pub use order::order_of;
pub use psl_base::NoMemory;
pub use tables::order_tables;
pub use wiring::Wiring;
