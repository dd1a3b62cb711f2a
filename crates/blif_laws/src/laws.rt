// The laws of models that fit together. No code runs.
ghost use Rattle.std.specs.Prelude.{◌≡◌, ℕ, ◌≤◌, List, length, All, None};
ghost use Rattle.psl_base.specs.Places.{file_limit};
ghost use Rattle.netlist.specs.Sound.{IsSound};
ghost use Rattle.blif_model.specs.Rules.{signal_limit};
ghost use Rattle.blif_flattening.specs.Hierarchy.{flat_lines};
ghost use Rattle.blif_flat.specs.Flat.{Models, flat_design, flat_outputs, AreSound};
ghost use Rattle.blif_flat.specs.Trees.{IsUnfolded};
ghost use Rattle.blif_hierarchy.specs.First.{IsClosed};
ghost use Rattle.blif_hierarchy.specs.Sums.{AreInForm};
ghost use Rattle.blif_linking.specs.Linked.{IsHierarchy, linked};
ghost use Rattle.blif_linking.specs.Names.{Parts, first_bad, first_unknown};
ghost use Rattle.blif_laws.specs.Examples.{TurningFits, TurningUnfolds, TurningIsATree};
ghost use Rattle.blif_laws.specs.Examples.{FormalsFollow, TablesHold, LatchesBegin, LatchesMove};
ghost use Rattle.blif_laws.specs.Named.{HasAllNames, ListsAllInstances, ListsAllNames};
ghost use Rattle.blif_laws.specs.Plain.{IsPlain};
ghost use Rattle.blif_laws.specs.Runs.{HasRuns};

/// Law: where each model that a text places is there, and its connections are in form, each placement by number is of one of
/// the models, and connects names of it, none of them twice.
pub fn placing_law()
    ensures closed { (parts : Parts) → first_unknown parts ≡ None → first_bad parts ≡ None → IsClosed (linked parts) }
    ensures form { (parts : Parts) → first_unknown parts ≡ None → first_bad parts ≡ None → AreInForm (linked parts) }
{}

/// Law: a text says one hierarchy at the most.
pub fn one_hierarchy_law()
    ensures { (text : List ℕ) (models others : Models) (texts titles : List (List (List ℕ)))
        → IsHierarchy text models texts → IsHierarchy text others titles → (models ≡ others) × (texts ≡ titles) }
{}

/// Law: where the models of a text fit together, each name of each model has just one driver: an input, a latch, a table
/// or a connection of an output; no instance is too deep, each row has a mark for each input of its table, and there are no
/// more signals than a netlist may have.
pub fn driving_law()
    ensures { (text : List ℕ) (models : Models) (texts : List (List (List ℕ))) → IsHierarchy text models texts
        → AreSound models texts signal_limit (length text) }
{}

/// Law: the flat netlist of models that fit together is sound: just one input, latch or table drives each of its signals,
/// and all that is read and driven are signals.
pub fn soundness_law()
    ensures { (text : List ℕ) (models : Models) (texts : List (List (List ℕ))) → IsHierarchy text models texts
        → length text ≤ file_limit → IsSound (flat_design models texts) }
{}

/// Law: it has no more signals or tables than a netlist may have, and the output of each table stands at a place of the
/// text.
pub fn bounds_law()
    ensures signals { (text : List ℕ) (models : Models) (texts : List (List (List ℕ))) → IsHierarchy text models texts
        → (flat_design models texts).signals ≤ signal_limit }
    ensures tables { (text : List ℕ) (models : Models) (texts : List (List (List ℕ))) → IsHierarchy text models texts
        → length (flat_design models texts).tables ≤ signal_limit }
    ensures outputs { (models : Models) (texts : List (List (List ℕ)))
        → length (flat_outputs (flat_lines models)) ≡ length (flat_design models texts).tables }
    ensures within { (text : List ℕ) (models : Models) (texts : List (List (List ℕ))) → IsHierarchy text models texts
        → All (λ at. at ≤ length text) (flat_outputs (flat_lines models)) }
{}

/// Law: its names are all names of all instances, those of the top first, and then instance by instance in flat order. Each
/// has bytes, and none of white space.
pub fn naming_law()
    ensures names { (text : List ℕ) (models : Models) (texts : List (List (List ℕ))) → IsHierarchy text models texts
        → ListsAllNames models texts }
    ensures instances { (text : List ℕ) (models : Models) (texts : List (List (List ℕ))) → IsHierarchy text models texts
        → ListsAllInstances models }
    ensures plain { (text : List ℕ) (models : Models) (texts : List (List (List ℕ))) → IsHierarchy text models texts
        → All IsPlain (flat_design models texts).names }
{}

/// Law: its valuations are the instance trees of the hierarchy. Unfolding takes valuations to instance trees, each instance
/// tree is the image of just one, and the images are first ones and steps just where the valuations are. An instance tree
/// says of all names of each instance, and of no others. So the runs of the flat netlist are those of the hierarchy.
pub fn unfolding_law()
    ensures unfolds { (text : List ℕ) (models : Models) (texts : List (List (List ℕ))) → IsHierarchy text models texts
        → IsUnfolded models texts }
    ensures names { (text : List ℕ) (models : Models) (texts : List (List (List ℕ))) → IsHierarchy text models texts
        → HasAllNames models }
    ensures runs { (text : List ℕ) (models : Models) (texts : List (List (List ℕ))) → IsHierarchy text models texts
        → HasRuns models texts }
{}

/// Worked examples of models that fit together and of their instance trees, as laws.
#[tactic(auto, using(crate::proofs::ExamplesHold::trees))]
pub fn worked_trees()
    ensures fits { TurningFits }
    ensures unfolds { TurningUnfolds }
    ensures tree { TurningIsATree }
    ensures formals { FormalsFollow }
    ensures tables { TablesHold }
    ensures begins { LatchesBegin }
    ensures moves { LatchesMove }
{}
