ghost use Rattle.std.specs.Prelude.{ℕ};
ghost use Rattle.psl_tree.specs.Trees.{Formula};
ghost use Rattle.alternating_theory.specs.Construction.{HasNoClock};
ghost use Rattle.alternating_theory.specs.Laws.{NamesOf};
ghost use Rattle.alternating_theory.specs.Merged.{merged_by};
ghost use Rattle.alternating_theory.specs.Obligations.{Automaton};
ghost use Rattle.alternating_theory.specs.Built.{built};
ghost use Rattle.alternating_theory.specs.LoopLaws.{LoopsOf, KeepsLoops};

/// A law: the automaton that is built of a formula without clocks accepts each word with a loop exactly
/// where the word satisfies the formula (IEEE 1850, Annex B).
#[tactic(auto, using(crate::proofs::LoopLawsHold::loops))]
pub fn automaton_accepts_formula()
    ensures { (formula : Formula) → HasNoClock formula → LoopsOf (built formula) formula }
{}

/// A law: merging by any classes keeps which words with a loop are accepted.
#[tactic(auto, using(crate::proofs::LoopLawsHold::merging))]
pub fn merging_keeps_loops()
    ensures { (automaton : Automaton) → NamesOf automaton → (class : ℕ → ℕ) → KeepsLoops automaton (merged_by class automaton) }
{}
