use crate::command::Command;
use crate::names::NameTable;
use crate::pieces::Span;
use crate::text::ModelText;
use psl_base::{Bits, Items};

/// Words of a text.
pub type Spans = Items<Span>;

/// What a line of a file of models is by its first word.
#[derive(Clone, Copy, Debug, PartialEq, Eq)]
pub enum FileCommand {
    /// `.model`: a model begins.
    Begin,
    /// `.subckt`: a model is placed in the one that is read.
    Place,
    /// Any other word: the line belongs to the model that is read.
    Own(Command),
}

/// What the own lines of a model say.
#[derive(Drop)]
pub struct OwnText<'a> {
    /// The names that the lines mention, and the lines with numbers in place of them.
    pub text: ModelText<'a>,
    /// Of each name, whether a line drives it.
    pub driven: Bits,
    /// Of each name, the word that mentions it first.
    pub firsts: Spans,
}

/// A `.subckt`, which places a model in the one in which it stands.
#[derive(Drop)]
pub struct PlacementLine {
    /// The `.subckt`.
    pub head: Span,
    /// The words behind it: the name of the model that is placed, and its connections.
    pub words: Spans,
    /// How many lines of inputs, outputs, latches and tables stand before it in its model.
    pub before: usize,
}

/// A model of a file.
#[derive(Drop)]
pub struct FileModel<'a> {
    /// Its name. Only a model that is alone in its file may have none.
    pub title: Option<Span>,
    /// What its own lines say.
    pub own: OwnText<'a>,
    /// The names in its `.clock` lines.
    pub clocks: Spans,
    /// The models that are placed in it, in order.
    pub placements: Items<PlacementLine>,
}

/// Models of a file, in their order.
pub type FileModels<'a> = Items<FileModel<'a>>;

/// What a file of models says.
#[derive(Drop)]
pub struct FileText<'a> {
    /// The names of the models. The place of a name is the number of its model.
    pub titles: NameTable<'a>,
    /// The models, the first of which is the top.
    pub models: FileModels<'a>,
}
