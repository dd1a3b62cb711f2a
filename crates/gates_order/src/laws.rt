ghost use Rattle.std.specs.Prelude.{ℕ, List};
ghost use Rattle.netlist.specs.Design.{Design};
ghost use Rattle.netlist.specs.Sound.{IsOrder, IsSound};
ghost use Rattle.gates_order.specs.Depths.{order_of};

/// A law: wherever the tables of a netlist can be computed in some order, they can in that of their depths.
pub fn order_law()
    ensures { (design : Design) (some : List ℕ) → IsSound design → IsOrder design.tables some
        → IsOrder design.tables (order_of design.tables) }
{}
