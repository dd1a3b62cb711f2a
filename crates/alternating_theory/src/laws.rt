ghost use Rattle.std.specs.Prelude.{◌≡◌, ℕ, IsTrue};
ghost use Rattle.psl_tree.specs.Trees.{Formula, Not};
ghost use Rattle.alternating_theory.specs.Construction.{HasNoClock};
ghost use Rattle.alternating_theory.specs.Dual.{opposite_automaton};
ghost use Rattle.alternating_theory.specs.Laws.{ValuesOf, NamesOf, SizeOf, KeepsValues};
ghost use Rattle.alternating_theory.specs.Merged.{class_in, classes_upto, fits, merged, merged_by};
ghost use Rattle.alternating_theory.specs.Obligations.{Automaton};
ghost use Rattle.alternating_theory.specs.Rows.{SizeRows};
ghost use Rattle.alternating_theory.specs.Built.{built};

/// A law: the automaton that is built of a formula without clocks has on each finite word, in each of
/// the three views, the value that satisfaction gives (IEEE 1850, Annex B); it is no larger than the
/// formula counts, and each of its obligations is reached.
#[tactic(auto, using(crate::proofs::LawsHold::values, crate::proofs::LawsHold::names, crate::proofs::LawsHold::size))]
pub fn automaton_means_formula()
    ensures values { (formula : Formula) → HasNoClock formula → ValuesOf (built formula) formula }
    ensures names { (formula : Formula) → HasNoClock formula → NamesOf (built formula) }
    ensures size { (formula : Formula) → HasNoClock formula → SizeOf (built formula) formula }
{}

/// A law: the dual of the automaton of a formula is the automaton of its negation, obligation by
/// obligation.
#[tactic(auto, using(crate::proofs::Negations::opposite_built))]
pub fn dual_is_negation()
    ensures { (formula : Formula) → HasNoClock formula → opposite_automaton (built formula) ≡ built (Not formula) }
{}

/// A law: merging by any classes keeps the values and what the numbers are, and changes places with the
/// dual.
#[tactic(auto, using(crate::proofs::Merges::merging_keeps, crate::proofs::MergedDuals::merged_opposite))]
pub fn merging_keeps_values()
    ensures keeps { (automaton : Automaton) → NamesOf automaton → (class : ℕ → ℕ) → KeepsValues automaton (merged_by class automaton) }
    ensures duals { (class : ℕ → ℕ) → (automaton : Automaton) → merged_by class (opposite_automaton automaton) ≡ opposite_automaton (merged_by class automaton) }
{}

/// A law: the classes of one pass over an automaton's obligations fit, so that merging by them needs no
/// test, and its dual has the same classes.
#[tactic(auto, using(crate::proofs::Classes::pass_fits, crate::proofs::Classes::pass_opposite))]
pub fn one_pass_fits()
    ensures fits { (automaton : Automaton) → NamesOf automaton → IsTrue (fits automaton (class_in (classes_upto automaton.obligations automaton.start))) }
    ensures duals { (automaton : Automaton) → NamesOf automaton → merged (opposite_automaton automaton) ≡ opposite_automaton (merged automaton) }
{}

/// Worked examples of the construction, as a law: how many obligations some formulas have.
#[tactic(auto, using(crate::proofs::LawsHold::size_rows))]
pub fn worked_sizes()
    ensures { SizeRows }
{}
