//! Formulas of a circuit at so many positions: clauses that are added to them, up to their limits; and
//! those by which its paths are searched through a window, for one that leads to a bad state from an
//! initial one, and for one of different states of which the last alone is bad.
#![tactic(auto)]

mod adding;
mod held;
mod literals;
mod variables;
mod windows;

pub use adding::{add_clause, add_somewhere, add_units};
pub use held::held_to;
pub use literals::moved;
pub use variables::following;
pub use windows::{base, induction};
