// What follows from the definitions alone.
ghost use Rattle.std.specs.Prelude.{◌≡◌, ℕ, ◌<◌, Bool as Truth, List, All, IsTrue};
ghost use Rattle.netlist.specs.Design.{Design};
ghost use Rattle.netlist.specs.Sound.{IsOrder, IsSound};
ghost use Rattle.gates_nodes.specs.declared.cover.Cover.{Cover};
ghost use Rattle.gates_nodes.specs.declared.node.Node.{Node};
ghost use Rattle.gates_frames.specs.Frames.{frame_at, Cone};
ghost use Rattle.gates_cone.specs.Cones.{IsLeast};
ghost use Rattle.gates_cone.specs.Fed.{cone_in};

/// A law: the cone of signals of a netlist is the least closed one that has them, and all that it has are signals of
/// the netlist.
pub fn cone_law()
    ensures least { (design : Design) (signals : List ℕ) → IsSound design
        → All (λ signal. signal < design.signals) signals → IsLeast design signals (cone_in design signals) }
    ensures within { (design : Design) (signals : List ℕ) → IsSound design
        → All (λ signal. signal < design.signals) signals
        → (signal : ℕ) → IsTrue (cone_in design signals signal) → signal < design.signals }
{}

/// A law: frames are the same for two cones that have the same signals of the netlist.
pub fn frames_law()
    ensures { (covers : List Cover) (given : ℕ) (design : Design) (order : List ℕ) (cone other : Cone) (initial : Truth)
        (nodes : List Node) (number : ℕ) → IsSound design → IsOrder design.tables order
        → ((signal : ℕ) → signal < design.signals → cone signal ≡ other signal)
        → frame_at covers given design order cone initial nodes number
        ≡ frame_at covers given design order other initial nodes number }
{}
