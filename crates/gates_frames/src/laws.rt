// What follows from the definitions alone.
ghost use Rattle.std.specs.Prelude.{◌≡◌, ℕ, suc, pos, negsuc, Bool as Truth, true, false, [], ◌∷◌, List, length};
ghost use Rattle.clauses.specs.Models.{Assignment};
ghost use Rattle.netlist.specs.Design.{Design};
ghost use Rattle.netlist.specs.Sound.{IsOrder, IsSound};
ghost use Rattle.gates_nodes.specs.declared.cover.Cover.{Cover};
ghost use Rattle.gates_nodes.specs.declared.node.Node.{Node};
ghost use Rattle.gates_nodes.specs.declared.node.Node.TheVariants.{Free};
ghost use Rattle.gates_nodes.specs.Makes.{AreSound};
ghost use Rattle.gates_nodes.specs.Nodes.{told, IsEvaluation, Source};
ghost use Rattle.gates_frames.specs.Examples.{toggle, toggle_covers, whole};
ghost use Rattle.gates_frames.specs.Frames.{frame_at, AreCovers, Cone, IsClosed};
ghost use Rattle.gates_frames.specs.Paths.{bits_along, IsPath, ShowsPath};

/// A law: each evaluation of frames shows a path, initial or from any valuation; and where the free bits are told those
/// of a path, the frames show it. All nodes name earlier literals.
pub fn path_law()
    ensures paths { (covers : List Cover) (given : ℕ) (design : Design) (order : List ℕ) (cone : Cone) (initial : Truth)
        (nodes : List Node) (source : Source) (values : Assignment) (last : ℕ)
        → IsSound design → IsOrder design.tables order → IsClosed design cone → AreCovers design.tables covers
        → AreSound given nodes
        → IsEvaluation covers given source values (frame_at covers given design order cone initial nodes last).nodes
        → (path : List (List Truth)) × IsPath design initial path × (length path ≡ suc last)
        × ShowsPath covers given design order cone initial nodes values path }
    ensures shown { (covers : List Cover) (given : ℕ) (design : Design) (order : List ℕ) (cone : Cone) (initial : Truth)
        (nodes : List Node) (values : Assignment) (last : ℕ) (path : List (List Truth))
        → IsSound design → IsOrder design.tables order → IsClosed design cone → AreCovers design.tables covers
        → AreSound given nodes → IsPath design initial path → length path ≡ suc last
        → IsEvaluation covers given (told (bits_along path)) values
        (frame_at covers given design order cone initial nodes last).nodes
        → ShowsPath covers given design order cone initial nodes values path }
    ensures sound { (covers : List Cover) (given : ℕ) (design : Design) (order : List ℕ) (cone : Cone) (initial : Truth)
        (nodes : List Node) (number : ℕ)
        → IsSound design → IsOrder design.tables order → IsClosed design cone → AreCovers design.tables covers
        → AreSound given nodes → AreSound given (frame_at covers given design order cone initial nodes number).nodes }
{}

/// A law of a worked example: from its first value the latch is a constant in each frame; from any value it is free in the
/// first frame, and the literal or its negation in turn, with no node for the table.
pub fn example_law()
    ensures initial { frame_at toggle_covers 0 toggle (0 ∷ []) whole true [] 0
        ≡ record { nodes = []; literals = negsuc 0 ∷ pos 1 ∷ [] } }
    ensures initial_next { frame_at toggle_covers 0 toggle (0 ∷ []) whole true [] 1
        ≡ record { nodes = []; literals = pos 1 ∷ negsuc 0 ∷ [] } }
    ensures any { frame_at toggle_covers 0 toggle (0 ∷ []) whole false [] 0
        ≡ record { nodes = Free 0 0 ∷ []; literals = pos 2 ∷ negsuc 1 ∷ [] } }
    ensures any_next { frame_at toggle_covers 0 toggle (0 ∷ []) whole false [] 1
        ≡ record { nodes = Free 0 0 ∷ []; literals = negsuc 1 ∷ pos 2 ∷ [] } }
{}
