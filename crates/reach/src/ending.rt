// How a search ends.
ghost use Rattle.std.specs.Prelude.{ℕ, length, IfOk, IfErr};
ghost use Rattle.reach.specs.Answers.{AreOpen as AreOpenFor, IsRefuted, IsReached};
ghost use Rattle.reach.specs.Formulas.{clauses_of, variables_of};
ghost use Rattle.reach.specs.Plain.{IsPlain};
ghost use Rattle.reach.specs.Questions.{query_of, IsStop};
ghost use Rattle.reach.specs.Systems.{system_of};
ghost use Rattle.reach_frames.specs.Levels.{frames_of};
ghost use Rattle.reach_frames.specs.Systems.{AreOpen, IsInvariant};
ghost use Rattle.run_terms.specs.Formulas.{HasModel};

use crate::answer::{ClauseLists, Frames, Reached};
use crate::asking::{Told, ask};
use crate::machine::JointMachine;
use crate::question::Question;
use crate::reading::read_states;
use clauses::{Clauses, Log};
use psl_base::NoMemory;
use reach_frames::{Path, Stop};
use std::alloc::Global;

/// The log that refutes a query which has no model.
fn refuted(alloc: Global, machine: &JointMachine, question: Question<'_>) -> Result<Log, Stop>
    requires plain { IsPlain machine.now.joint.now (query_of question) }
    requires none { HasModel (variables_of machine.now.joint.now (query_of question))
        (clauses_of machine.now.joint.now (query_of question)) → ⊥ }
    ensures refuted { IfOk result (IsRefuted machine.now.joint.now machine.now.steps (query_of question.entry)) }
    ensures stopped { IfErr result (IsStop machine.now.joint.now machine.now.steps) }
{
    match ask(alloc, machine.joint, machine.steps, question)? {
        Told::Model(_) => unreachable!(),
        Told::Refuted(log, _) => Ok(log),
    }
}

/// An invariant, with the logs of its three queries.
pub(crate) fn inductive(
    alloc: Global,
    machine: &JointMachine,
    clauses: Clauses,
) -> Result<Reached, Stop>
    requires { IsInvariant (system_of machine.now.joint.now) clauses }
    ensures reached { IfOk result (λ reached. (frames : ℕ) → IsReached machine.now.joint.now frames machine.now.steps reached) }
    ensures stopped { IfErr result (IsStop machine.now.joint.now machine.now.steps) }
{
    machine.joint.facts();
    let initial = refuted(alloc, machine, Question::Initial(&clauses))?;
    let step = refuted(alloc, machine, Question::Step(&clauses))?;
    let bad = refuted(alloc, machine, Question::Bad(&clauses))?;
    Ok(Reached::Inductive(clauses, initial, step, bad))
}

/// The frames, with their stuck states.
pub(crate) fn opened(
    alloc: Global,
    machine: &JointMachine,
    frames: &reach_frames::Frames,
    stuck: &Path,
) -> Result<Frames, NoMemory>
    requires { AreOpen (system_of machine.now.joint.now) (frames_of frames.now) stuck.now }
    ensures { IfOk result (AreOpenFor machine.now.joint.now (length frames.now)) }
{
    machine.joint.state_bits();
    let mut lists = ClauseLists::new(alloc);
    for place in 0..frames.len() {
        lists.push(frames.frame(alloc, place)?)?;
    }
    let stuck = read_states(alloc, machine.joint, stuck)?;
    Ok(Frames {
        frames: lists,
        stuck,
    })
}
