// The laws of hierarchies. No code runs.
ghost use Rattle.blif_hierarchy.specs.Laws.{HasFewSignals, IsDrivenOnce, DrivesSignals};

use blif_flattening::{Line, Model};
use psl_base::Items;

/// Laws of hierarchies in which each name of a model has just one driver: a line, a placement, or, for an input, what
/// places the model. There are no more signals than the sum over placements says, and the flat lines and the inputs of
/// the top drive each signal just once, and nothing else.
pub fn hierarchy_law<L: Line>(models: &Items<Model<L>>)
    ensures few { HasFewSignals L.mentions models.now }
    ensures once { IsDrivenOnce L.mentions models.now }
    ensures only { DrivesSignals L.mentions models.now }
{
    let _models = models;
}
