ghost use Rattle.std.specs.Prelude.{◌≡◌, ◌⊎◌, ℕ, List, All};
ghost use Rattle.psl_tree.specs.Satisfaction.{Sat};
ghost use Rattle.psl_tree.specs.Trace.{trace_of};
ghost use Rattle.psl_tree.specs.Views.{weak, strong};
ghost use Rattle.psl_tree.specs.declared.directive.Directive.{Directive};
ghost use Rattle.psl_tree.specs.declared.letter.Letter.{Letter};
ghost use Rattle.psl_tree.specs.declared.limit.Limit.{Limit};
ghost use Rattle.psl_tree.specs.declared.limit.UnitFault.TheVariants.{TooLarge};
ghost use Rattle.psl_tree.specs.Trees.{Formula};
ghost use Rattle.wave_judge.specs.Faults.{IsJudgeable, IsFirstRefused};
ghost use Rattle.wave_judge.specs.Settled.{IsSettledAgainst, IsSettledFor, IsPoint, Stays, HasOnePoint, endless};

/// A law of the definitions: either each directive of a unit can be judged or one is the first that passes a limit, never
/// both, and there is no other first one and no other limit.
#[tactic(auto, using(crate::proofs::Faults::some_answer, crate::proofs::Faults::not_both, crate::proofs::Faults::one_fault))]
pub fn one_answer_law()
    ensures some { (unit : List Directive) → All IsJudgeable unit ⊎ ((number : ℕ) × (limit : Limit) × IsFirstRefused unit number limit) }
    ensures not_both { (unit : List Directive) (number : ℕ) (limit : Limit) → All IsJudgeable unit → IsFirstRefused unit number limit → ⊥ }
    ensures one { (unit : List Directive) (number other : ℕ) (limit next : Limit) → IsFirstRefused unit number limit
        → IsFirstRefused unit other next → TooLarge number limit ≡ TooLarge other next }
{}

/// A law of the definitions: what letters settle, more letters settle. A formula that they settle against is satisfied by
/// no endless word that begins with them, and one that they settle for by each. A directive has one point at most, the one
/// side only where the weak view does not satisfy it, the other only where the strong view does.
pub fn settled_stays()
    ensures stays { (formula : Formula) → Stays (IsSettledAgainst formula) × Stays (IsSettledFor formula) }
    ensures never_satisfied { (formula : Formula) (letters : List Letter) (rest : ℕ → Letter)
        → IsSettledAgainst formula letters → Sat (endless letters rest) formula None → ⊥ }
    ensures always_satisfied { (formula : Formula) (letters : List Letter) (rest : ℕ → Letter)
        → IsSettledFor formula letters → Sat (endless letters rest) formula None }
    ensures weak_view { (formula : Formula) (letters : List Letter) (count : ℕ)
        → IsPoint (IsSettledAgainst formula) letters count → Sat (trace_of (weak letters)) formula None → ⊥ }
    ensures strong_view { (formula : Formula) (letters : List Letter) (count : ℕ)
        → IsPoint (IsSettledFor formula) letters count → Sat (trace_of (strong letters)) formula None }
    ensures one { (formula : Formula) → HasOnePoint (IsSettledAgainst formula) × HasOnePoint (IsSettledFor formula) }
{}
