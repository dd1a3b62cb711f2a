// The run of the command.
ghost use Rattle.std.specs.Prelude.{◌≡◌, ◌⊎◌, ◌<◌, None, map, string_bytes, IfSome};
ghost use Rattle.psl_base.specs.Faults.{Rose};
ghost use Rattle.sat_command.specs.Answering.{IsAnswered};
ghost use Rattle.sat_command.specs.Endings.{IsCause, IsDeviceStatus, IsOfWriting, Prints, status_of};
ghost use Rattle.sat_command.specs.Refusals.{IsRefusal};
ghost use Rattle.sat_command.specs.Requests as requests;
ghost use Rattle.sat_command.specs.Saved.{IsSaved, files_of};

use crate::Report;
use crate::finish::{finish_answer, finish_fault};
use crate::planning::plan;
use crate::words::request_of;
use psl_base::{Shelf, Sink};
use std::alloc::Global;

/// Runs the command that the words after the program's name give, `FILE [--steps N] [--log FILE]`: reads the formula of
/// the file, solves it in at most so many steps, each of which learns a lemma, writes the log of a refutation or of an
/// undecided formula where it is asked for, and prints what was found out. A fault's line goes to `err`.
pub fn run<F: Shelf, O: Sink, E: Sink>(
    alloc: Global,
    words: &[String],
    files: &mut F,
    out: &mut O,
    err: &mut E,
) -> Report
    // The status follows from what was found out and the fault.
    ensures status { result.status ≡ status_of result.answer result.fault }

    // Where the contents are told, the file is there and stands for a formula, and the answer is one for that, with its
    // evidence. Words that are no command have none.
    ensures answered { IfSome result.answer (IsAnswered (requests.request_of (map string_bytes words.now)) (F.state files.old)) }

    // With a fault nothing was found out, unless it is of writing. Without one something was: see `printed`.
    ensures nothing { IfSome result.fault (λ fault. IsOfWriting fault ⊎ (result.answer ≡ None)) }

    // Each fault has its cause. Where the contents are told, a text is refused with its first fault and the place of it. The
    // log cannot be written only where it was asked for and the count of writing rose, and an output only where its count
    // rose.
    ensures cause { IfSome result.fault (IsCause (requests.request_of (map string_bytes words.now)) result.answer (F.state files.old) (F.state files.new)
        (Rose (O.state out.old).faults (O.state out.new).faults ⊎ Rose (E.state err.old).faults (E.state err.new).faults)) }

    // The log of the answer stands whole in the file that it was asked for in, or its first bytes where that fails, and
    // every other content is as before. Without an answer every content is.
    ensures saved { IsSaved (files_of (requests.request_of (map string_bytes words.now)) result.answer) result.fault (F.state files.old) (F.state files.new) }

    // What is printed is the answer's text whole, or the fault's line, or their first bytes, or those of the line of a fault
    // that was to be told. Nothing is printed where the log could not be written.
    ensures printed { Prints (requests.request_of (map string_bytes words.now))
        (IsRefusal (requests.request_of (map string_bytes words.now)) (F.state files.old) (F.state files.new)) result.answer result.fault
        (O.state out.old) (O.state out.new) (E.state err.old) (E.state err.new) }

    // A count that is larger after the run than before it comes with the status of such a fault.
    ensures counted { ((F.state files.old).read_faults < (F.state files.new).read_faults)
        ⊎ (((F.state files.old).write_faults < (F.state files.new).write_faults)
        ⊎ (((O.state out.old).faults < (O.state out.new).faults) ⊎ ((E.state err.old).faults < (E.state err.new).faults)))
        → IsDeviceStatus result.status }
{
    let request = request_of(words);
    match plan(alloc, request, files) {
        Ok(planned) => finish_answer(planned, files, out, err),
        Err(fault) => finish_fault(alloc, request, fault, err),
    }
}
