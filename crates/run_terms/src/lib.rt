//! What the positions of a run say as terms over bits: letters, Booleans and positive combinations of obligations, the
//! tables and latches of a netlist, and numbers. It holds definitions and lemmas; its functions state laws.
#![tactic(auto)]

mod laws;

pub use laws::{
    boolean_law, combination_law, driver_law, letter_law, move_law, number_law, position_law,
    table_law,
};
