ghost use Rattle.std.specs.Prelude.{◌≡◌, ◌≤◌, ◌∷◌, [], IfOk, IfErr};
ghost use Rattle.psl_tree.specs.Directives.{AreOver};
ghost use Rattle.findings.specs.Asked.{AreNumbered, IsAskedOf};
ghost use Rattle.findings.specs.Entries.{AreFindings, IsEntry};
ghost use Rattle.findings.specs.Recordings.{wanted_of};
ghost use Rattle.findings.specs.Sizes.{AreWithin};
ghost use Rattle.findings.specs.Telling.{HaveTold, IsEntryFault, IsProveFault};
ghost use Rattle.findings.specs.Traceable.{AreTraceable};
ghost use Rattle.prover.specs.Tasks.{IsProvable};
ghost use Rattle.prover.specs.Telling.{HasToldFor};

use crate::entry::{FindingEntry, Findings};
use crate::recording::{Recordings, recorded_of};
use netlist::Netlist;
use owed::is_asked;
use prover::{Options, ProveFault, Task, Wording, prove_aloud};
use psl_base::{NoMemory, Sink, Text};
use psl_tree::{Directive, Unit};
use std::alloc::Global;

/// What is found out of each directive of a text on a netlist that is asked: of its assertions, and of its covers where
/// `covers` says so. They are within the limits, and all that the text names are signals of the netlist. The certificate of
/// one that is proved is passed by the checker, and a run that violates one is recorded where recordings are wanted. What
/// is owed of a cover is that it is not met, so a run that violates it meets the cover. While it goes on the milestones of
/// each directive are told on a sink, in these words.
///
/// # Errors
///
/// `NoMemory` if memory is refused, and `Unwritten` once only the first bytes of a line could be written.
pub fn prove_all<W: Wording, E: Sink>(
    alloc: Global,
    unit: &Unit,
    netlist: &Netlist,
    options: Options,
    covers: bool,
    recordings: Option<Recordings<'_>>,
    wording: &W,
    err: &mut E,
) -> Result<Findings, ProveFault>
    requires within { AreWithin netlist.now options.depth covers unit.now }
    requires in_range { AreOver netlist.now.names unit.now }
    requires numbered { AreNumbered unit.now }
    requires depth { 1 ≤ options.depth }
    requires most { options.depth ≤ 1000 }
    requires visits { options.visits ≤ 16 }
    requires traceable { AreTraceable netlist.now unit.now (wanted_of recordings) }
    ensures findings { IfOk result (AreFindings netlist.now unit.now options covers (wanted_of recordings.entry)) }
    ensures told { IfOk result (λ _. HaveTold netlist.now unit.now covers (W.line wording.now) (E.state err.old) (E.state err.new)) }
    ensures fault { IfErr result (IsProveFault netlist.now unit.now covers (W.line wording.now) (E.state err.old) (E.state err.new)) }
{
    let mut findings = Findings::new(alloc);
    for directive in unit.as_slice() {
        if is_asked(covers, directive.kind) {
            let task = Task {
                unit,
                directive,
                netlist,
                options,
            };
            let entry = entry_of(alloc, task, recordings, wording, err)?;
            findings.push(entry)?;
        }
    }
    Ok(findings)
}

fn entry_of<W: Wording, E: Sink>(
    alloc: Global,
    task: Task,
    recordings: Option<Recordings<'_>>,
    wording: &W,
    err: &mut E,
) -> Result<FindingEntry, ProveFault>
    requires provable { IsProvable task }
    requires asked { IsAskedOf task.unit.now task.directive.now }
    requires depth { task.options.depth ≤ 1000 }
    requires traceable { AreTraceable task.netlist.now (task.directive.now ∷ []) (wanted_of recordings) }
    ensures entry { IfOk result (IsEntry task.entry.netlist.now task.entry.unit.now task.entry.options (wanted_of recordings.entry) task.entry.directive.now) }
    ensures told { IfOk result (λ _. HasToldFor task.entry (W.line wording.now) (E.state err.old) (E.state err.new)) }
    ensures fault { IfErr result (IsEntryFault task.entry.netlist.now task.entry.unit.now task.entry.directive.now (W.line wording.now) (E.state err.old) (E.state err.new)) }
{
    let finding = prove_aloud(alloc, task, wording, err)?;
    let recorded = recorded_of(alloc, task, recordings, &finding)?;
    Ok(FindingEntry {
        kind: task.directive.kind,
        number: number_of(task.directive),
        label: copy_of(alloc, &task.directive.label)?,
        finding,
        recorded,
    })
}

// The number of a directive, which is within the range of numbers that certificates have.
fn number_of(directive: &Directive) -> u32
    ensures is { result ≡ directive.now.number }
    ensures few { result ≤ 4294967295 }
{
    directive.number
}

fn copy_of(alloc: Global, label: &Option<Text>) -> Result<Option<Text>, NoMemory>
    ensures { IfOk result (λ new. new ≡ label.now) }
{
    match label {
        None => Ok(None),
        Some(label) => Ok(Some(label.copy(alloc)?)),
    }
}
