use crate::line::ModelLine;
use crate::names::NameTable;
use blif_flattening::Model;

/// What a text says: its names in the order of their first mention, and its model, in which names are their places
/// there.
#[derive(Drop)]
pub struct ModelText<'a> {
    /// The names.
    pub names: NameTable<'a>,
    /// The model: its lines in order. It places no other model.
    pub model: Model<ModelLine>,
}
