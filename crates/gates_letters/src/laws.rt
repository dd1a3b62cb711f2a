// What follows from the definitions alone.
ghost use Rattle.std.specs.Prelude.{◌≡◌, ℕ, ℤ, suc, Bool as Truth, true, List, Option, IsTrue};
ghost use Rattle.alternating_theory.specs.Atoms.{AtomsOfPositive};
ghost use Rattle.alternating_theory.specs.Positive.{met, Positive};
ghost use Rattle.clauses.specs.Literals.{clause_within};
ghost use Rattle.clauses.specs.Models.{is_true, Assignment};
ghost use Rattle.psl_tree.specs.Atoms.{AtomsOfBoolean};
ghost use Rattle.psl_tree.specs.Holds.{holds};
ghost use Rattle.psl_tree.specs.Names.{AtomInRange};
ghost use Rattle.psl_tree.specs.Trees.{Boolean};
ghost use Rattle.psl_tree.specs.declared.name.Name.{Name};
ghost use Rattle.run_terms.specs.Letters.{letter_after};
ghost use Rattle.gates_nodes.specs.declared.cover.Cover.{Cover};
ghost use Rattle.gates_nodes.specs.declared.node.Node.{Node};
ghost use Rattle.gates_nodes.specs.Folding.{Built};
ghost use Rattle.gates_nodes.specs.Makes.{AreSound, Makes};
ghost use Rattle.gates_nodes.specs.Nodes.{variables_of};
ghost use Rattle.gates_frames.specs.Frames.{literal_at, Cone};
ghost use Rattle.gates_frames.specs.Paths.{Shows};
ghost use Rattle.gates_letters.specs.Booleans.{boolean_built};
ghost use Rattle.gates_letters.specs.Combinations.{combination_built, combination_by};
ghost use Rattle.gates_letters.specs.Extending.{Extends};
ghost use Rattle.gates_letters.specs.Letters.{letter_of, FramesWithin, ShowsBefore};

/// A law: in each evaluation the literal of a Boolean whose atoms are in range of names says whether it holds on the
/// letter of the values that the frame's literals have, after those of the frame before. Where the frames show
/// valuations, so it is on the letter of these.
pub fn boolean_law()
    ensures value { (covers : List Cover) (given : ℕ) (nodes : List Node) (names : List Name) (before : Option (List ℤ))
        (now : List ℤ) (test : Boolean) → AreSound given nodes → FramesWithin (variables_of given nodes) before now
        → AtomsOfBoolean (AtomInRange names) test
        → Makes covers given nodes (boolean_built given before now test nodes)
        (λ values. holds (letter_of names values before now) test) }
    ensures shown { (given : ℕ) (names : List Name) (cone : Cone) (values : Assignment) (before : Option (List ℤ))
        (now : List ℤ) (earlier : Option (List Truth)) (valuation : List Truth) (test : Boolean)
        → values (suc given) ≡ true → AtomsOfBoolean (AtomInRange names) test
        → AtomsOfBoolean (λ atom. IsTrue (cone atom.signal)) test
        → ShowsBefore given cone values before earlier → Shows given cone values now valuation
        → holds (letter_of names values before now) test ≡ holds (letter_after names earlier valuation) test }
{}

/// A law: in each evaluation the literal of a positive combination says whether the letter of the frame meets it, where
/// each obligation at the next place is met as its literal says, which is made behind whatever nodes there are. With a
/// list of literals, they are met by the values of these; past its end none is met. Where the frames show valuations, so
/// it is on the letter of these.
pub fn combination_law()
    ensures made { (covers : List Cover) (given : ℕ) (nodes : List Node) (names : List Name) (before : Option (List ℤ))
        (now : List ℤ) (later : ℕ → List Node → Built) (meaning : ℕ → Assignment → Truth) (positive : Positive)
        → AreSound given nodes → FramesWithin (variables_of given nodes) before now
        → AtomsOfPositive (AtomInRange names) positive
        → ((number : ℕ) (others : List Node) → Extends nodes others → AreSound given others
        → Makes covers given others (later number others) (meaning number))
        → Makes covers given nodes (combination_by given before now later positive nodes)
        (λ values. met positive (letter_of names values before now) (λ number. meaning number values)) }
    ensures value { (covers : List Cover) (given : ℕ) (nodes : List Node) (names : List Name) (before : Option (List ℤ))
        (now later : List ℤ) (positive : Positive) → AreSound given nodes
        → FramesWithin (variables_of given nodes) before now → IsTrue (clause_within (variables_of given nodes) later)
        → AtomsOfPositive (AtomInRange names) positive
        → Makes covers given nodes (combination_built given before now later positive nodes)
        (λ values. met positive (letter_of names values before now)
        (λ number. is_true values (literal_at given later number))) }
    ensures shown { (given : ℕ) (names : List Name) (cone : Cone) (values : Assignment) (before : Option (List ℤ))
        (now : List ℤ) (earlier : Option (List Truth)) (valuation : List Truth) (next : ℕ → Truth) (positive : Positive)
        → values (suc given) ≡ true → AtomsOfPositive (AtomInRange names) positive
        → AtomsOfPositive (λ atom. IsTrue (cone atom.signal)) positive
        → ShowsBefore given cone values before earlier → Shows given cone values now valuation
        → met positive (letter_of names values before now) next
        ≡ met positive (letter_after names earlier valuation) next }
{}
