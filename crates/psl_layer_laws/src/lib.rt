//! Laws of the layer over the surface tree of a text: what a text is resolved to hangs on its tokens and their grammar
//! alone, and not on where the program keeps the parts of its tree; and it speaks of bits that the names have.
#![tactic(auto)]

ghost use Rattle.std.specs.Prelude.{◌≡◌, All, List};
ghost use Rattle.psl_grammar.specs.declared.tree.UnitTree as code_tree;
ghost use Rattle.psl_grammar.specs.Surface.{tree_node};
ghost use Rattle.psl_layer_theory.specs.Directives.{kernel};
ghost use Rattle.psl_layer_theory.specs.Flaws.{tree_flaws};
ghost use Rattle.psl_tree.specs.Atoms.{AtomsOfFormula};
ghost use Rattle.psl_tree.specs.Names.{AreAlike, AtomInRange};
ghost use Rattle.psl_tree.specs.declared.name.Name.{Name};
ghost use Rattle.psl_layer_laws.specs.Comparisons.{TextsCompareNumbers};

/// A law of the definitions, which runs nothing: two trees of the program that stand for one tree of the grammar have
/// the same faults of kinds and names, and the same kernel.
pub fn same_tree()
    ensures { (names : List Name) (first second : code_tree.UnitTree) → tree_node first ≡ tree_node second
        → (tree_flaws names first ≡ tree_flaws names second) × (kernel names first ≡ kernel names second) }
{}

/// A law of the definitions, which runs nothing: where all names of one signal have the same number of indices, each atom
/// of the kernel is in range: some name has its signal, and each name that has it has its bit.
pub fn atoms_in_range()
    ensures { (names : List Name) (tree : code_tree.UnitTree) → AreAlike names
        → All (λ asked. AtomsOfFormula (AtomInRange names) asked.formula) (kernel names tree) }
{}

/// A law of the definitions, which runs nothing: a comparison of a text without faults holds, on a letter that is neither
/// Top nor Bottom, exactly where the numbers of its two sides compare so.
pub fn comparisons_of_texts()
    ensures { TextsCompareNumbers }
{}
