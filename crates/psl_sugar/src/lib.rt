//! The syntactic sugar of the Property Specification Language: for each derived form the call that
//! builds its kernel tree from the trees of its parts, as long as it has at most 4,096 constructors.
#![tactic(auto)]

mod abort;
mod boolean;
mod boolean_sugar;
mod budget;
mod comparison;
mod connectives;
mod count;
mod directive;
mod equality;
mod fault;
mod formula;
mod laws;
mod occurrence;
mod operand;
mod operator;
mod order;
mod sequence;
mod sequence_operators;
mod sequence_sugar;
mod suffix;
mod temporal;
mod until;
mod vector;

pub use abort::AbortOperator;
pub use boolean::MeasuredBool;
pub use comparison::Comparison;
pub use connectives::Connective;
pub use count::Count;
pub use fault::SugarFault;
pub use formula::MeasuredFl;
pub use laws::comparisons;
pub use operand::Operand;
pub use operator::{Quantifier, Range, Strength};
pub use sequence::MeasuredSere;
pub use sequence_operators::SequenceOperator;
pub use suffix::SuffixOperator;
pub use until::UntilOperator;
pub use vector::{Bit, Vector};
