// What a path stands for.
ghost use Rattle.std.specs.Prelude.{◌≤◌};
ghost use Rattle.psl_layer.specs.Placed.{bits_in};

use psl_layer_theory::Reference;

/// What a path stands for, perhaps with an index: where it is bits, there is one at least.
#[derive(Debug, Drop)]
pub(crate) struct Referred {
    pub reference: Reference,
    ghost some: { 1 ≤ bits_in reference },
}
