// The laws of flat netlists. No code runs.
ghost use Rattle.std.specs.Prelude.{◌≤◌, ℕ, ◌+◌, ◌*◌, ◌<◌, ◌^◌, List};
ghost use Rattle.netlist.specs.Sound.{IsSound};
ghost use Rattle.blif_flattening.specs.Trees.{IsWhole};
ghost use Rattle.blif_flat.specs.Flat.{Models, flat_design, AreFormed, AreSound};
ghost use Rattle.blif_flat.specs.Lines.{mentions_of};
ghost use Rattle.blif_flat.specs.Trees.{IsUnfolded};

/// Law: where each name of each model has just one driver, and the models are no deeper, larger or wider than is allowed,
/// the flat netlist is a netlist: just one input, latch or table drives each of its signals, and each has a name.
pub fn soundness_law()
    ensures { (models : Models) (texts : List (List (List ℕ))) (limit most : ℕ) → AreSound models texts limit most
        → limit + limit * most < 2 ^ 63 → IsSound (flat_design models texts) }
{}

/// Law: the valuations of the flat netlist are the instance trees of its hierarchy, in which the tables of each instance
/// hold and each connected formal has its actual's value; first valuations and steps are kept both ways. So the runs of
/// the flat netlist are those of the hierarchy.
pub fn unfolding_law()
    ensures { (models : Models) (texts : List (List (List ℕ))) (most : ℕ) → IsWhole mentions_of models → AreFormed models most → IsUnfolded models texts }
{}
