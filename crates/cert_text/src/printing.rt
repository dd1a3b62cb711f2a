// A certificate of a window as lines of text.
ghost use Rattle.std.specs.Prelude.{◌≡◌, ◌++◌, IfOk, OnOk};
ghost use Rattle.cert_theory.specs.Lines.{header_lines, lines_text, live_lines};
ghost use Rattle.cert_theory.specs.Printed.{cert_text, header_of, live_of};
ghost use Rattle.cert_theory.specs.declared.header.Form.TheVariants.{Windowed};
ghost use Rattle.cert_theory.specs.declared.header.Version.TheVariants.{One, Two};

use crate::lines::{add_field, add_line, add_section, first_line};
use crate::live::most_live;
use cert_theory::{Certificate, Field, Form, Section, Version};
use psl_base::{Bytes, NoMemory};
use std::alloc::Global;

/// The lines of a certificate in the second version: those of its header, with the most lemmas of either log that are
/// live at once, and those of the lemmas and drops of its two logs.
pub fn print_cert(alloc: Global, certificate: &Certificate) -> Result<Bytes, NoMemory>
    ensures { IfOk result (λ text. text ≡ cert_text Two certificate.now) }
{
    print(alloc, Version::Two, certificate)
}

/// The lines of a certificate in the first version, in which drops have none.
pub fn print_cert_1(alloc: Global, certificate: &Certificate) -> Result<Bytes, NoMemory>
    ensures { IfOk result (λ text. text ≡ cert_text One certificate.now) }
{
    print(alloc, Version::One, certificate)
}

fn print(alloc: Global, version: Version, certificate: &Certificate) -> Result<Bytes, NoMemory>
    ensures { IfOk result (λ text. text ≡ cert_text version certificate.now) }
{
    let form = Form::Windowed(version);
    let mut text = Vec::new(alloc);
    add_header(&mut text, version, certificate)?;
    add_section(&mut text, form, Section::Base, &certificate.base)?;
    add_section(&mut text, form, Section::Induction, &certificate.induction)?;
    Ok(Bytes::from_vec(text))
}

/// Adds the lines of the header.
fn add_header(
    text: &mut Vec<u8>,
    version: Version,
    certificate: &Certificate,
) -> Result<(), NoMemory>
    ensures { OnOk result (text.new.items
        ≡ text.old.items ++ lines_text (header_lines certificate.now.assertion (header_of version certificate.now))) }
{
    add_line(text, first_line(Form::Windowed(version)))?;
    add_field(text, Field::Assertion, certificate.assertion)?;
    add_field(text, Field::Visits, certificate.visits)?;
    add_field(text, Field::Window, certificate.window)?;
    add_live(text, version, certificate)?;
    add_line(text, b"base")
}

/// Adds the line that says how many lemmas are live at once, where the version has it.
fn add_live(text: &mut Vec<u8>, version: Version, certificate: &Certificate) -> Result<(), NoMemory>
    ensures { OnOk result (text.new.items
        ≡ text.old.items ++ lines_text (live_lines (Windowed version) (live_of version certificate.now))) }
{
    match version {
        Version::One => Ok(()),
        Version::Two => {
            let live = most_live(&certificate.base).max(most_live(&certificate.induction));
            add_field(text, Field::Live, live)
        }
    }
}
