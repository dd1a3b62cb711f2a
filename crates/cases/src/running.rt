ghost use Rattle.std.specs.Prelude.{◌<◌};

use crate::case::{Case, Section};
use crate::content::content_of;
use crate::fault::Fault;
use crate::pieces::{PieceSink, Pieces};
use commands::run as run_pslc;
use psl_base::{Bytes, File, Files, MemShelf, MemSink};
use sat_command::run as run_sat;
use std::alloc::Global;

/// How many bytes an output takes where the case does not say it.
const ROOM: u32 = 16_777_216;

/// How much of a line is shown.
const SHOWN: usize = 200;

/// What files and outputs have after a run, and its status.
#[derive(Drop)]
struct Outputs {
    shelf: MemShelf,
    out: MemSink,
    err: MemSink,
    status: u8,
}

/// What differs in a case, in words.
pub fn difference<'a>(
    alloc: Global,
    common: &Case<'a>,
    case: &Case<'a>,
) -> Result<Option<String>, Fault> {
    let ran = outputs_of(alloc, common, case)?;
    let mut found = String::new(alloc);
    let (status, wanted) = (ran.status, case.status.or(common.status).unwrap_or(0));
    if status != wanted {
        found.push_str(format!(in alloc; "  status {status}, wanted {wanted}\n")?.as_str())?;
    }
    for (name, bytes) in [("stdout", ran.out.bytes()), ("stderr", ran.err.bytes())] {
        let wanted = output(alloc, common, case, name)?;
        if bytes != wanted.as_slice() {
            add_line(alloc, name, wanted.as_slice(), bytes, &mut found)?;
        }
    }
    add_files_found(alloc, common, case, common, &ran.shelf, &mut found)?;
    add_files_found(alloc, common, case, case, &ran.shelf, &mut found)?;
    Ok(if found.is_empty() { None } else { Some(found) })
}

/// What an output has to have.
fn output<'a>(
    alloc: Global,
    common: &Case<'a>,
    case: &Case<'a>,
    name: &str,
) -> Result<Bytes, Fault> {
    match case.section(name).or(common.section(name)) {
        Some(section) => content_of(alloc, common, section),
        None => Ok(Bytes::new(alloc)),
    }
}

/// Runs a case over files and outputs in memory.
fn outputs_of<'a>(alloc: Global, common: &Case<'a>, case: &Case<'a>) -> Result<Outputs, Fault> {
    let Some(command) = case.command.or(common.command) else {
        return Err(Fault::Command);
    };
    let words = words(alloc, command)?;
    let mut files = Files::new(alloc);
    add_files(alloc, common, common, &mut files)?;
    add_files(alloc, common, case, &mut files)?;
    let mut shelf = Pieces {
        shelf: MemShelf::new(
            alloc,
            &files,
            written_in(common).saturating_add(written_in(case)),
            case.file_room.unwrap_or(ROOM),
            &case.unread,
        )?,
        most: most_of(common, case),
    };
    let mut out = PieceSink {
        sink: MemSink::new(alloc, case.room.unwrap_or(ROOM), &case.unwritten)?,
        most: most_of(common, case),
    };
    let mut err = PieceSink {
        sink: MemSink::new(alloc, case.error_room.unwrap_or(ROOM), &case.untold)?,
        most: most_of(common, case),
    };
    let status = if is_of_sat(command) {
        run_sat(alloc, words.as_slice(), &mut shelf, &mut out, &mut err).status
    } else {
        run_pslc(alloc, words.as_slice(), &mut shelf, &mut out, &mut err).status
    };
    Ok(Outputs {
        shelf: shelf.shelf,
        out: out.sink,
        err: err.sink,
        status,
    })
}

/// How many files are written in a case. A run has no room for the name of another one.
fn written_in(case: &Case<'_>) -> u32 {
    let mut count = 0u32;
    for section in case.sections.as_slice() {
        if section.is_written {
            count = count.saturating_add(1);
        }
    }
    count
}

/// How many bytes a call gives or takes at the most: at least one, and as many as are asked for where nothing is said.
fn most_of(common: &Case<'_>, case: &Case<'_>) -> usize
    ensures { 0 < result }
{
    match case.piece.or(common.piece) {
        Some(size) if size > 0 => size as usize,
        _ => usize::MAX,
    }
}

/// Whether a command is one of the program `sat`.
fn is_of_sat(command: &str) -> bool {
    command.split_whitespace().next() == Some("sat")
}

/// The words behind the program's name.
fn words(alloc: Global, command: &str) -> Result<Vec<String>, Fault> {
    let mut words = Vec::new(alloc);
    for word in command.split_whitespace().skip(1) {
        words.push(String::from_str(alloc, word)?)?;
    }
    Ok(words)
}

/// What differs in the files of a part after a run. A file that is not written has what it had before.
fn add_files_found<'a, 'b>(
    alloc: Global,
    common: &'b Case<'a>,
    case: &'b Case<'a>,
    part: &Case<'a>,
    shelf: &MemShelf,
    found: &mut String,
) -> Result<(), Fault> {
    for section in part.sections.as_slice() {
        let name = section.name;
        if let (Some(after), false) = (section_after(common, case, name), is_output(name)) {
            add_file_found(alloc, common, after, shelf.content(name), found)?;
        }
    }
    Ok(())
}

/// What a file has after a run: what is written to it, and else what it had before.
fn section_after<'a, 'b>(
    common: &'b Case<'a>,
    case: &'b Case<'a>,
    name: &str,
) -> Option<&'b Section<'a>> {
    case.written(name)
        .or(common.written(name))
        .or(case.section(name))
        .or(common.section(name))
}

/// What differs in a file after a run.
fn add_file_found<'a>(
    alloc: Global,
    common: &Case<'a>,
    section: &Section<'a>,
    content: Option<&[u8]>,
    found: &mut String,
) -> Result<(), Fault> {
    let wanted = content_of(alloc, common, section)?;
    match content {
        Some(bytes) if bytes == wanted.as_slice() => {}
        Some(bytes) => add_line(alloc, section.name, wanted.as_slice(), bytes, found)?,
        None => {
            let name = section.name;
            found.push_str(format!(in alloc; "  {name} is not there\n")?.as_str())?;
        }
    }
    Ok(())
}

/// Whether a section is of an output.
fn is_output(name: &str) -> bool {
    name == "stdout" || name == "stderr"
}

/// The files of a case before a run; its outputs are none.
fn add_files<'a>(
    alloc: Global,
    common: &Case<'a>,
    case: &Case<'a>,
    files: &mut Files,
) -> Result<(), Fault> {
    for section in case.sections.as_slice() {
        if !section.is_written && !is_output(section.name) {
            files.push(File {
                name: Bytes::from_slice(alloc, section.name.as_bytes())?,
                content: content_of(alloc, common, section)?,
            })?;
        }
    }
    Ok(())
}

/// The first line of an output that differs, as it is wanted and as it is.
fn add_line(
    alloc: Global,
    name: &str,
    wanted: &[u8],
    found: &[u8],
    text: &mut String,
) -> Result<(), Fault> {
    let (number, start) = first_line(wanted, found);
    text.push_str(format!(in alloc; "  {name}, line {number}, wanted: ")?.as_str())?;
    add_shown(alloc, wanted, start, text)?;
    text.push_str("\n  found: ")?;
    add_shown(alloc, found, start, text)?;
    text.push('\n')?;
    Ok(())
}

/// The number of the first line that differs, counted from 1, and where it begins.
fn first_line(wanted: &[u8], found: &[u8]) -> (u64, usize) {
    let (mut number, mut start) = (1u64, 0usize);
    for (place, (one, other)) in wanted.iter().zip(found.iter()).enumerate() {
        if *one != *other {
            break;
        }
        if *one == b'\n' {
            number = number.saturating_add(1);
            start = place.saturating_add(1);
        }
    }
    (number, start)
}

/// A line, or its first bytes; what is not printable as a number.
fn add_shown(alloc: Global, bytes: &[u8], start: usize, text: &mut String) -> Result<(), Fault> {
    for byte in bytes.iter().skip(start).take(SHOWN) {
        match *byte {
            b'\n' => break,
            b' '..=b'~' => text.push(*byte as char)?,
            other => text.push_str(format!(in alloc; "\\x{other:02x}")?.as_str())?,
        }
    }
    Ok(())
}
