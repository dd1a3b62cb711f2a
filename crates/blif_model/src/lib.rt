//! What a text in the Berkeley Logic Interchange Format says: its lines word by word, with their places, the first fault
//! of these, and its models, in which names have become numbers.
#![tactic(auto)]

mod class;
mod command;
mod fault;
mod file;
mod file_reader;
mod file_reading;
mod flags;
mod head;
mod laws;
mod line;
mod names;
mod pieces;
mod reader;
mod shapes;
mod signals;
mod table;
mod tail;
mod text;

pub use command::Command;
pub use fault::BlifFault;
pub use file::{FileModel, FileModels, FileText, OwnText, PlacementLine, Spans};
pub use file_reading::read_models;
pub use laws::{file_law, naming_law, worked_examples, worked_files};
pub use line::{LineKind, ModelLine, TableRows};
pub use names::NameTable;
pub use pieces::Span;
pub use psl_base::NoMemory;
pub use shapes::text_of;
pub use text::ModelText;
