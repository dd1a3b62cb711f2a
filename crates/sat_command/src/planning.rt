// What a run is to write and to print.
ghost use Rattle.std.specs.Prelude.{◌≡◌, ◌++◌, map, Some, IfOk, IfErr, OnOk};
ghost use Rattle.std.specs.Option.{option_map};
ghost use Rattle.psl_base.specs.Saves.{file_of};
ghost use Rattle.psl_base.specs.Shelf.{OnlyReads};
ghost use Rattle.sat_command.specs.Answering.{IsAnswered};
ghost use Rattle.sat_command.specs.Refusals.{IsCounted, IsRefusal, IsUnwritten};
ghost use Rattle.sat_command.specs.Requests.{asked_by};
ghost use Rattle.sat_command.specs.Saved as saved;
ghost use Rattle.sat_command.specs.Text.{answer_text};

use crate::Fault;
use crate::model_text::add_model;
use crate::solving::solved;
use crate::words::Request;
use cdcl::Answer;
use clause_text::print_log2;
use clauses::Log;
use psl_base::{Bytes, NoMemory, Save, Saves, Shelf, add_bytes};
use std::alloc::Global;

/// An answer, the files that are to be written of it, and the text that is to be printed.
#[derive(Debug, Drop)]
pub struct Planned {
    pub answer: Answer,
    pub saves: Saves,
    pub text: Bytes,
}

/// What is found out for a request, if there is one, with what is to be written and printed of it. Nothing is written.
pub(crate) fn plan<F: Shelf>(
    alloc: Global,
    request: Option<Request<'_>>,
    files: &mut F,
) -> Result<Planned, Fault>
    ensures answered { IfOk result (λ made. IsAnswered (option_map asked_by request.entry) (F.state files.old) made.answer) }
    ensures saves { IfOk result (λ made. map file_of made.saves ≡ saved.files_of (option_map asked_by request.entry) (Some made.answer)) }
    ensures text { IfOk result (λ made. made.text ≡ answer_text made.answer) }
    ensures refused { IfErr result (IsRefusal (option_map asked_by request.entry) (F.state files.old) (F.state files.new)) }
    ensures unwritten { IfErr result IsUnwritten }
    ensures quiet { IfOk result (λ _. (F.state files.new).read_faults ≡ (F.state files.old).read_faults) }
    ensures counted { IfErr result (IsCounted (F.state files.old) (F.state files.new)) }
    ensures rest { OnlyReads (F.state files.old) (F.state files.new) }
{
    let Some(request) = request else {
        return Err(Fault::Usage);
    };
    let answer = solved(alloc, &request, files)?;
    let planned = made(alloc, request.log, answer)?;
    Ok(planned)
}

/// An answer with its files and its text.
fn made(alloc: Global, log: Option<&str>, answer: Answer) -> Result<Planned, NoMemory>
    ensures answer { IfOk result (λ made. made.answer ≡ answer) }
    ensures saves { IfOk result (λ made. map file_of made.saves ≡ saved.log_files (option_map (λ name. name.now) log.entry) (saved.log_of answer)) }
    ensures text { IfOk result (λ made. made.text ≡ answer_text answer) }
{
    let saves = saves_of(alloc, log, log_of(&answer))?;
    let mut text = Vec::new(alloc);
    add_answer(&mut text, &answer)?;
    Ok(Planned {
        answer,
        saves,
        text: Bytes::from_vec(text),
    })
}

/// The file of a log, where there is one and a name for it.
fn saves_of(alloc: Global, name: Option<&str>, log: Option<&Log>) -> Result<Saves, NoMemory>
    ensures { IfOk result (λ saves. map file_of saves ≡ saved.log_files (option_map (λ name. name.now) name.entry) (option_map (λ log. log.now) log.entry)) }
{
    let mut saves = Saves::new(alloc);
    if let (Some(name), Some(log)) = (name, log) {
        saves.push(Save {
            name: String::from_str(alloc, name)?,
            content: print_log2(alloc, log)?,
        })?;
    }
    Ok(saves)
}

/// The log of an answer.
fn log_of(answer: &Answer) -> Option<&Log>
    ensures { option_map (λ log. log.now) result ≡ saved.log_of answer.now }
{
    match answer {
        Answer::Model(_) => None,
        Answer::Refuted(log) => Some(log),
        Answer::Spent(log) => Some(log),
        Answer::LogFull(log) => Some(log),
    }
}

/// Adds the text of an answer, in the words of the solvers' competitions.
fn add_answer(text: &mut Vec<u8>, answer: &Answer) -> Result<(), NoMemory>
    ensures { OnOk result (text.new.items ≡ text.old.items ++ answer_text answer.now) }
{
    match answer {
        Answer::Model(values) => {
            add_bytes(text, b"s SATISFIABLE\n")?;
            add_model(text, values.as_slice())
        }
        Answer::Refuted(_) => add_bytes(text, b"s UNSATISFIABLE\n"),
        Answer::Spent(_) => add_bytes(text, b"s UNKNOWN\n"),
        Answer::LogFull(_) => add_bytes(text, b"s UNKNOWN\n"),
    }
}
