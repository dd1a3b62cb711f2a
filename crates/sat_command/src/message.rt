// The line of a fault.
ghost use Rattle.std.specs.Prelude.{◌≡◌, ◌++◌, IfOk, OnOk};
ghost use Rattle.std.specs.Option.{option_map};
ghost use Rattle.sat_command.specs.Requests.{asked_by};
ghost use Rattle.sat_command.specs.Text as spec;

use crate::Fault;
use crate::rows::row_of;
use crate::words::Request;
use psl_base::{Bytes, NoMemory, Place, add_bytes, add_number};
use std::alloc::Global;

/// A fault's line: the file and the place that it is of, and what it is.
pub(crate) fn line_of(
    alloc: Global,
    request: Option<Request<'_>>,
    fault: Fault,
) -> Result<Bytes, NoMemory>
    ensures { IfOk result (λ line. line ≡ spec.line_of (option_map asked_by request.entry) fault) }
{
    let mut line = Vec::new(alloc);
    add_bytes(&mut line, b"sat: ")?;
    add_about(&mut line, request, fault)?;
    add_bytes(&mut line, row_of(fault).words)?;
    add_bytes(&mut line, b"\n")?;
    Ok(Bytes::from_vec(line))
}

/// Adds the file that a fault is of, with its place.
fn add_about(line: &mut Vec<u8>, request: Option<Request<'_>>, fault: Fault) -> Result<(), NoMemory>
    ensures { OnOk result (line.new.items ≡ line.old.items ++ spec.about (option_map asked_by request.entry) fault) }
{
    match fault {
        Fault::CannotRead | Fault::TooLong => add_file(line, request, None),
        Fault::Format(fault) => add_file(line, request, fault.place()),
        Fault::Usage | Fault::CannotWrite | Fault::CannotPrint | Fault::NoMemory => Ok(()),
    }
}

/// Adds the file of the formula, perhaps with a place.
fn add_file(
    line: &mut Vec<u8>,
    request: Option<Request<'_>>,
    place: Option<Place>,
) -> Result<(), NoMemory>
    ensures { OnOk result (line.new.items ≡ line.old.items ++ spec.file_text (option_map asked_by request.entry) place) }
{
    let Some(request) = request else {
        return Ok(());
    };
    add_bytes(line, request.file.as_bytes())?;
    add_place(line, place)
}

/// Adds a place in a file, and a blank behind it.
fn add_place(line: &mut Vec<u8>, place: Option<Place>) -> Result<(), NoMemory>
    ensures { OnOk result (line.new.items ≡ line.old.items ++ spec.place_text place) }
{
    if let Some(place) = place {
        add_bytes(line, b":")?;
        add_number(line, place.line as u64)?;
        add_bytes(line, b":")?;
        add_number(line, place.column as u64)?;
    }
    add_bytes(line, b": ")
}
