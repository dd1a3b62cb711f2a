ghost use Rattle.std.specs.Prelude.{◌≡◌, ℕ, ◌⊎◌};
ghost use Rattle.netlist_order.specs.Graph.{Graph, IsFirstOnCycle};
ghost use Rattle.netlist_order.specs.TableGraph.{IsAcyclic};

/// A law of dependency graphs: no table depends on itself, or there is a first one that does, and never both.
pub fn cycle_law()
    ensures some { (graph : Graph) → IsAcyclic graph ⊎ ((table : ℕ) × IsFirstOnCycle graph table) }
    ensures one { (graph : Graph) (table other : ℕ) → IsFirstOnCycle graph table → IsFirstOnCycle graph other → table ≡ other }
    ensures both { (graph : Graph) (table : ℕ) → IsAcyclic graph → IsFirstOnCycle graph table → ⊥ }
{}
