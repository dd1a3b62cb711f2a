// The end of a run: what is written and printed.
ghost use Rattle.std.specs.Prelude.{◌≡◌, [], map, Option, None, Some, OnOk, OnErr};
ghost use Rattle.std.specs.Option.{option_map};
ghost use Rattle.psl_base.specs.Faults.{Rose};
ghost use Rattle.psl_base.specs.Saves.{file_of};
ghost use Rattle.psl_base.specs.Shelf.{OnlyWrites};
ghost use Rattle.psl_base.specs.Sink.{SinkState};
ghost use Rattle.sat_command.specs.Endings as spec;
ghost use Rattle.sat_command.specs.Endings.{AddsSome, EndsFaulted, EndsWith, IsToTell, Prints, PrintsFault};
ghost use Rattle.sat_command.specs.Refusals.{IsUnwritten};
ghost use Rattle.sat_command.specs.Requests.{Asked, asked_by};
ghost use Rattle.sat_command.specs.Text.{answer_text, line_of as line_text};

use crate::message::line_of;
use crate::planning::Planned;
use crate::rows::row_of;
use crate::words::Request;
use crate::{Fault, Report};
use cdcl::Answer;
use psl_base::{Shelf, Sink, put_all, save_all};
use std::alloc::Global;

/// Writes the files of an answer and prints its text, and tells how the run ended. It takes no memory.
pub(crate) fn finish_answer<F: Shelf, O: Sink, E: Sink>(
    planned: Planned,
    files: &mut F,
    out: &mut O,
    err: &mut E,
) -> Report
    requires text { planned.text ≡ answer_text planned.answer }

    ensures answer { result.answer ≡ Some planned.answer }
    ensures status { result.status ≡ spec.status_of result.answer result.fault }
    ensures ends { EndsWith (map file_of planned.saves) (F.state files.old) (F.state files.new) (Rose (O.state out.old).faults (O.state out.new).faults) result.fault }
    ensures printed { (asked : Option Asked) → Prints asked (λ _. ⊥) result.answer result.fault (O.state out.old) (O.state out.new) (E.state err.old) (E.state err.new) }
    ensures none { planned.saves ≡ [] → F.state files.new ≡ F.state files.old }
    ensures rest { OnlyWrites (F.state files.old) (F.state files.new) }
{
    let Planned {
        answer,
        saves,
        text,
    } = planned;
    if let Err(_failed) = save_all(files, saves.as_slice()) {
        return unwritten(answer, Fault::CannotWrite, err);
    }
    if let Err(_failed) = put_all(out, text.as_slice()) {
        return unwritten(answer, Fault::CannotPrint, err);
    }
    Report {
        status: status_of(&answer),
        answer: Some(answer),
        fault: None,
    }
}

/// Tells that an answer could not be written.
fn unwritten<E: Sink>(answer: Answer, fault: Fault, err: &mut E) -> Report
    requires { spec.IsOfWriting fault }
    ensures answer { result.answer ≡ Some answer }
    ensures status { result.status ≡ spec.status_of result.answer result.fault }
    ensures fault { result.fault ≡ Some fault }
    ensures told { (asked : Option Asked) → AddsSome (line_text asked fault) (E.state err.old) (E.state err.new) }
{
    let _told = put_all(err, b"sat: write fault\n");
    Report {
        status: row_of(fault).status,
        answer: Some(answer),
        fault: Some(fault),
    }
}

fn status_of(answer: &Answer) -> u8
    ensures { result ≡ spec.answer_status answer.now }
{
    match answer {
        Answer::Model(_) => 10,
        Answer::Refuted(_) => 20,
        Answer::Spent(_) | Answer::LogFull(_) => 0,
    }
}

/// Tells why there is no answer.
pub(crate) fn finish_fault<E: Sink>(
    alloc: Global,
    request: Option<Request<'_>>,
    fault: Fault,
    err: &mut E,
) -> Report
    requires unwritten { IsUnwritten fault }

    ensures answer { result.answer ≡ None }
    ensures status { result.status ≡ spec.status_of result.answer result.fault }
    ensures ends { EndsFaulted fault (Rose (E.state err.old).faults (E.state err.new).faults) result.fault }
    ensures printed { (out : SinkState) → Prints (option_map asked_by request.entry) (IsToTell fault) result.answer result.fault out out (E.state err.old) (E.state err.new) }
{
    match line_of(alloc, request, fault) {
        Ok(line) => tell(fault, line.as_slice(), err),
        Err(_refused) => tell(Fault::NoMemory, b"sat: no memory\n", err),
    }
}

/// Tells a fault by its line.
fn tell<E: Sink>(fault: Fault, line: &[u8], err: &mut E) -> Report
    requires unwritten { IsUnwritten fault }

    ensures answer { result.answer ≡ None }
    ensures status { result.status ≡ spec.status_of result.answer result.fault }
    ensures ends { EndsFaulted fault (Rose (E.state err.old).faults (E.state err.new).faults) result.fault }
    ensures printed { (asked : Option Asked) (out : SinkState) → line.now ≡ line_text asked fault
        → Prints asked (λ other. other ≡ fault) result.answer result.fault out out (E.state err.old) (E.state err.new) }
{
    let fault = match put_all(err, line) {
        Ok(()) => fault,
        Err(_failed) => Fault::CannotPrint,
    };
    Report {
        status: row_of(fault).status,
        answer: None,
        fault: Some(fault),
    }
}
