ghost use Rattle.std.specs.Prelude.{◌≡◌, ℕ, List, Ok, Result};
ghost use Rattle.netlist.specs.Design.{Design};
ghost use Rattle.blif_model.specs.declared.fault.BlifFault.{BlifFault};
ghost use Rattle.blif_reader.specs.Hierarchy.{IsOfHierarchy};
ghost use Rattle.blif_reader.specs.Meaning.{IsReading};

/// A law of the definitions: each text has a netlist or a first fault, and only one.
pub fn one_reading_law()
    ensures some { (text : List ℕ) → (read : Result Design BlifFault) × IsReading text read }
    ensures one { (text : List ℕ) (read other : Result Design BlifFault) → IsReading text read → IsReading text other → read ≡ other }
{}

/// A law of netlists that are read: the valuations of each are the instance trees of the hierarchy that its text says, each
/// instance tree is that of just one valuation, and first valuations, steps and runs are kept both ways. Its names are all
/// names of all instances.
pub fn hierarchy_law()
    ensures { (text : List ℕ) (design : Design) → IsReading text (Ok design) → IsOfHierarchy text design }
{}
