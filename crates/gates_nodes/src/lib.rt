//! Gates that are built with folding and sharing: nodes, the values of their literals, the lists of nodes that a
//! conjunction or a table gives, and the clauses of what is asked. It holds types, definitions and lemmas; its functions
//! state laws.
#![tactic(auto)]

mod cover;
mod laws;
mod node;

pub use cover::{Cover, Covers};
pub use laws::{model_law, value_law};
pub use node::{Node, Nodes};
