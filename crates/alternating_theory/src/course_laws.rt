ghost use Rattle.std.specs.Prelude.{◌≡◌, ◌<◌, ℕ, length};
ghost use Rattle.psl_tree.specs.Clockless.{IsPlain};
ghost use Rattle.psl_tree.specs.Trace.{trace_of};
ghost use Rattle.psl_tree.specs.Trees.{Boolean, Formula};
ghost use Rattle.psl_tree.specs.declared.letter.Letter.TheVariants.{Top};
ghost use Rattle.psl_tree.specs.declared.letter.Word.{Word};
ghost use Rattle.alternating_theory.specs.Courses.{Course, course_of, read_from};
ghost use Rattle.alternating_theory.specs.CourseLaws.{IsCutAtFirst, IsStable};

/// A law: the trace of a word with a loop is what its course reads from the first place on.
#[tactic(auto, using(crate::proofs::Words::word_read))]
pub fn word_is_read()
    ensures { (word : Word) → 0 < length word.looped → trace_of word ≡ read_from (course_of word) 0 }
{}

/// A law: an abort needs one course alone. `f async_abort b` is satisfied from a place exactly where f
/// is on the course that goes on at Top for ever from the first place on which b holds (IEEE 1850,
/// Annex B, the abort row).
#[tactic(auto, using(crate::proofs::CourseLawsHold::cut_at_first))]
pub fn abort_is_cut_at_first()
    ensures { (course : Course) → (test : Boolean) → (sink : ℕ) → course.letter sink ≡ Top → course.next sink ≡ sink
        → (formula : Formula) → IsPlain formula → (place : ℕ) → IsCutAtFirst course test sink formula place }
{}

/// A law: what a formula without clocks cannot fail to hold of, it holds of. The tables' "some" and "or"
/// are classical, so a proof that no run violates a formula shows that each satisfies it.
#[tactic(auto, using(crate::proofs::CourseLawsHold::is_stable))]
pub fn satisfaction_is_stable()
    ensures { (formula : Formula) → IsPlain formula → IsStable formula }
{}
