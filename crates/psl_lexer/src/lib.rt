//! Tokens of a text in the Property Specification Language (IEEE 1850, clause 4.2).
#![tactic(auto)]

mod bytes;
mod fault;
mod front;
mod kind;
mod laws;
mod lexing;
mod numbers;
mod texts;
mod token;
mod values;
mod words;

pub use bytes::base_of;
pub use fault::LexFault;
pub use kind::TokenKind;
pub use laws::one_answer;
pub use lexing::lex;
pub use token::{Token, Tokens};
pub use values::value_of;
