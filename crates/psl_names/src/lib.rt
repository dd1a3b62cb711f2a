//! Which bits a path of a surface tree stands for, and what its words, numbers and constants say.
#![tactic(auto)]

mod bus_bits;
mod buses;
mod ends;
mod matching;
mod operators;
mod paths;
mod references;
mod shapes;
mod sorting;
mod split;
mod texts;
mod values;

pub use buses::bus_names;
pub use matching::{NameIndex, look_up};
pub use operators::{
    declaration_word, directive_kind_of, edge_of, is_endless, prefix_operator, quantifier_of,
    repetition_operator, strength_of,
};
pub use paths::PathIndex;
pub use references::{index_number, refers_to};
pub use shapes::operator_before;
pub use split::{Indexed, split_index};
pub use texts::path_text;
pub use values::{literal_value, number_of};
