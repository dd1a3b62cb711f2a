ghost use Rattle.std.specs.Prelude.{◌≡◌, ◌^◌, ◌<◌, [], false, length, replicate, IfOk};
ghost use Rattle.sere_nfa.specs.Marking.{MarksAlive, finals_from, visit_all};
ghost use Rattle.sere_nfa.specs.MarkingView.{marking_of};
ghost use Rattle.sere_nfa.specs.Views.{states_of_code, StatesWithin};

use crate::marking::Marking;
use crate::sources::sources_of;
use crate::state::State;
use psl_base::{Bits, Items, NoMemory};
use std::alloc::Global;

/// For each state, whether a final state is reached from it over letters Top. Each state and each
/// edge is looked at once.
pub(crate) fn alive_marks(alloc: Global, states: &[State]) -> Result<Bits, NoMemory>
    requires within { StatesWithin 0 (length states.now) states.now }
    requires room { length states.now < 2 ^ 32 }
    ensures { IfOk result (λ marks. MarksAlive (states_of_code states.now) marks) }
{
    let sources = sources_of(alloc, states)?;
    let mut marking = final_marks(alloc, states)?;
    while let Some(number) = marking.waiting.pop() {
        marking.visit_each(sources[number as usize].as_slice())?;
    }
    let Marking { marks, waiting: _ } = marking;
    Ok(Items::from_vec(marks))
}

// The final states are marked, and wait.
fn final_marks(alloc: Global, states: &[State]) -> Result<Marking, NoMemory>
    requires { length states.now < 2 ^ 32 }
    ensures { IfOk result (λ marking. marking_of marking ≡ visit_all (record { marks = replicate (length states.now) false; waiting = [] }) (finals_from 0 (states_of_code states.now))) }
{
    let mut marking = Marking::new(alloc, states.len())?;
    for (number, state) in states.iter().enumerate() {
        if state.is_final {
            marking.visit(number as u32)?;
        }
    }
    Ok(marking)
}
