// The lines of a certificate.
ghost use Rattle.std.specs.Prelude.{◌≡◌, ℕ, [], ◌∷◌, ◌++◌, OnOk};
ghost use Rattle.cert_theory.specs.Lines.{end_line, field_line, form_line, lines_text, word_of};
ghost use Rattle.cert_theory.specs.Printed.{entry_lines, section_lines};
ghost use Rattle.cert_theory.specs.Sections as spec;

use cert_theory::{Field, Form, Section, Version};
use clause_text::{add_log, add_log2};
use clauses::Log;
use psl_base::{NoMemory, add_bytes, add_number};

/// The first line of a certificate.
pub(crate) fn first_line(form: Form) -> &'static [u8]
    ensures { result.now ≡ form_line form }
{
    match form {
        Form::Windowed(Version::One) => b"pslc-cert 1",
        Form::Windowed(Version::Two) => b"pslc-cert 2",
        Form::Clausal => b"pslc-cert 3",
    }
}

/// Adds the line of a number.
pub(crate) fn add_field(text: &mut Vec<u8>, field: Field, number: u32) -> Result<(), NoMemory>
    ensures { OnOk result (text.new.items ≡ text.old.items ++ lines_text (field_line field number ∷ [])) }
{
    add_bytes(text, word(field))?;
    add_bytes(text, b" ")?;
    add_number(text, u64::from(number))?;
    add_bytes(text, b"\n")
}

fn word(field: Field) -> &'static [u8]
    ensures { result.now ≡ word_of field }
{
    match field {
        Field::Assertion => b"assertion",
        Field::Visits => b"visits",
        Field::Window => b"window",
        Field::Live => b"live",
    }
}

/// Adds the lines of a section's log, and the one that ends it.
pub(crate) fn add_section(
    text: &mut Vec<u8>,
    form: Form,
    section: Section,
    log: &Log,
) -> Result<(), NoMemory>
    ensures { OnOk result (text.new.items ≡ text.old.items ++ lines_text (section_lines form section log.now)) }
{
    add_entries(text, form, log)?;
    add_line(text, last_line(section))
}

fn add_entries(text: &mut Vec<u8>, form: Form, log: &Log) -> Result<(), NoMemory>
    ensures { OnOk result (text.new.items ≡ text.old.items ++ lines_text (entry_lines form log.now)) }
{
    if drops_in(form) {
        add_log2(text, log)
    } else {
        add_log(text, log)
    }
}

/// Whether drops have lines.
fn drops_in(form: Form) -> bool
    ensures { result ≡ spec.drops_in form }
{
    match form {
        Form::Windowed(Version::One) => false,
        Form::Windowed(Version::Two) => true,
        Form::Clausal => true,
    }
}

fn last_line(section: Section) -> &'static [u8]
    ensures { result.now ≡ end_line section }
{
    match section {
        Section::Base => b"induction",
        Section::Induction => b"end",
        Section::Initial => b"step",
        Section::Step => b"bad",
        Section::Bad => b"end",
    }
}

/// Adds a line.
pub(crate) fn add_line(text: &mut Vec<u8>, line: &[u8]) -> Result<(), NoMemory>
    ensures { OnOk result (text.new.items ≡ text.old.items ++ lines_text (line.now ∷ [])) }
{
    add_bytes(text, line)?;
    add_bytes(text, b"\n")
}
