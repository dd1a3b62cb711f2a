ghost use Rattle.std.specs.Prelude.{ℕ, ◌≤◌, Bool as Truth, List};
ghost use Rattle.netlist.specs.Design.{Design};
ghost use Rattle.gates_frames.specs.Frames.{frame_at, Cone};
ghost use Rattle.gates_nodes.specs.declared.cover.Cover.{Cover};
ghost use Rattle.gates_nodes.specs.declared.node.Node.{Node};
ghost use Rattle.gates_nodes.specs.Nodes.{variables_of};

/// A law: a frame takes no nodes away, so where the nodes up to one are too many variables, so are those up to a later one.
pub fn growing_law()
    ensures first { (covers : List Cover) (given : ℕ) (design : Design) (order : List ℕ) (cone : Cone) (initial : Truth)
        (nodes : List Node)
        → variables_of given nodes ≤ variables_of given (frame_at covers given design order cone initial nodes 0).nodes }
    ensures later { (covers : List Cover) (given : ℕ) (design : Design) (order : List ℕ) (cone : Cone) (initial : Truth)
        (nodes : List Node) (number later : ℕ) → number ≤ later
        → variables_of given (frame_at covers given design order cone initial nodes number).nodes
        ≤ variables_of given (frame_at covers given design order cone initial nodes later).nodes }
{}
