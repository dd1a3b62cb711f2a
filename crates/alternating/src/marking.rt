ghost use Rattle.std.specs.Prelude.{◌≡◌, ◌^◌, ◌<◌, ◌≤◌, length, IfOk, OnOk};
ghost use Rattle.sere_nfa.specs.Marking.{visit, visit_all};
ghost use Rattle.sere_nfa.specs.MarkingView.{marking_of};
ghost use Rattle.alternating_theory.specs.Positive.{OwesWithin};
ghost use Rattle.alternating.specs.Search.{owed_in, MarksReached};
ghost use Rattle.alternating.specs.Views.{positive_of, obligations_of_code, ObligationsWithin};

use crate::obligation::Obligation;
use crate::positive::Positive;
use psl_base::NoMemory;
use sere_nfa::Marking;
use std::alloc::Global;

/// Which obligations are reached from the start. Each is looked at once.
pub(crate) fn reached_marks(
    alloc: Global,
    obligations: &[Obligation],
    start: u32,
) -> Result<Vec<bool>, NoMemory>
    requires within { ObligationsWithin 0 (length obligations.now) obligations.now }
    requires begun { start < length obligations.now }
    ensures { IfOk result (λ marks. MarksReached (obligations_of_code obligations.now) start marks.items) }
{
    let mut marking = Marking::new(alloc, obligations.len())?;
    marking.visit(start)?;
    while let Some(number) = marking.waiting.pop() {
        let found = &obligations[number as usize];
        visit_owed(&mut marking, &found.delta)?;
    }
    let Marking { marks, waiting: _ } = marking;
    Ok(marks)
}

// Visits all that a combination owes.
#[tactic(auto, using(crate::proofs::Search::visit_all_append))]
fn visit_owed(marking: &mut Marking, delta: &Positive) -> Result<(), NoMemory>
    requires { OwesWithin 0 (length marking.old.marks.items) (positive_of delta.now) }
    ensures marking { OnOk result (marking_of marking.new ≡ visit_all (marking_of marking.old) (owed_in (positive_of delta.now))) }
    ensures len { OnOk result (length marking.new.marks.items ≡ length marking.old.marks.items) }
{
    match delta {
        Positive::Const(_) | Positive::Holds(_) => Ok(()),
        Positive::Owed(number) => marking.visit(*number),
        Positive::And(left, right) | Positive::Or(left, right) => {
            visit_owed(marking, left)?;
            visit_owed(marking, right)
        }
    }
}
