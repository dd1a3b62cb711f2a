ghost use Rattle.std.specs.Prelude.{◌≡◌, ℕ, Bool as Truth, List, length};
ghost use Rattle.netlist.specs.Design.{free_of};
ghost use Rattle.netlist.specs.Sound.{IsOrder, IsSound};
ghost use Rattle.netlist.specs.Valuations.{values, IsFilled, IsInitial, IsStep, IsValuation};

use crate::Netlist;

/// A law of netlists: what `of` asks holds of each one.
pub fn soundness_law(netlist: &Netlist)
    ensures sound { IsSound netlist.now }
    ensures ordered { (order : List ℕ) × IsOrder netlist.now.tables order }
{
    netlist.facts();
}

/// A law of netlists: for each choice of values of the signals that no table drives there is a valuation, and only one.
pub fn one_valuation_law(netlist: &Netlist)
    ensures some { (free : List Truth) → length free ≡ length (free_of netlist.now)
        → (valuation : List Truth) × IsFilled netlist.now free valuation }
    ensures one { (free left right : List Truth) → IsFilled netlist.now free left → IsFilled netlist.now free right
        → left ≡ right }
{
    netlist.facts();
}

/// A law of netlists: for each choice of inputs there is an initial valuation, and one that may follow any other.
pub fn next_valuation_law(netlist: &Netlist)
    ensures first { (inputs : List Truth) → length inputs ≡ length netlist.now.inputs
        → (first : List Truth) × IsInitial netlist.now first × (values first netlist.now.inputs ≡ inputs) }
    ensures next { (earlier inputs : List Truth) → IsValuation netlist.now earlier
        → length inputs ≡ length netlist.now.inputs
        → (later : List Truth) × IsStep netlist.now earlier later × (values later netlist.now.inputs ≡ inputs) }
{
    netlist.facts();
}
