// A certificate of clauses as lines of text.
ghost use Rattle.std.specs.Prelude.{◌≡◌, ◌++◌, IfOk, OnOk, map};
ghost use Rattle.cert_theory.specs.Lines.{header_lines, lines_text};
ghost use Rattle.cert_theory.specs.Printed.{clause_lines, inductive_header, inductive_live as most_of, inductive_text};
ghost use Rattle.cert_theory.specs.Printed.{log_lines_of};
ghost use Rattle.clause_text.specs.Lines.{literals_text};

use crate::lines::{add_field, add_line, add_section, first_line};
use crate::live::most_live;
use cert_theory::{Field, Form, InductiveCert, Section};
use clause_text::add_clause_line;
use clauses::Clauses;
use psl_base::{Bytes, NoMemory};
use std::alloc::Global;

/// The lines of a certificate of clauses, which are the third version: those of its header, with the most lemmas of any
/// log that are live at once, those of the clauses, and those of the lemmas and drops of its three logs.
pub fn print_inductive(alloc: Global, certificate: &InductiveCert) -> Result<Bytes, NoMemory>
    ensures { IfOk result (λ text. text ≡ inductive_text certificate.now) }
{
    let mut text = Vec::new(alloc);
    add_header(&mut text, certificate)?;
    add_clause_lines(&mut text, &certificate.clauses)?;
    add_logs(&mut text, certificate)?;
    Ok(Bytes::from_vec(text))
}

/// Adds the lines of the header.
fn add_header(text: &mut Vec<u8>, certificate: &InductiveCert) -> Result<(), NoMemory>
    ensures { OnOk result (text.new.items
        ≡ text.old.items ++ lines_text (header_lines certificate.now.assertion (inductive_header certificate.now))) }
{
    add_line(text, first_line(Form::Clausal))?;
    add_field(text, Field::Assertion, certificate.assertion)?;
    add_field(text, Field::Visits, certificate.visits)?;
    add_field(text, Field::Live, inductive_live(certificate))?;
    add_line(text, b"clauses")
}

/// The most lemmas of any of the three logs that are live at once.
fn inductive_live(certificate: &InductiveCert) -> u32
    ensures { result ≡ most_of certificate.now }
{
    let initial = most_live(&certificate.initial);
    let step = most_live(&certificate.step);
    let bad = most_live(&certificate.bad);
    initial.max(step.max(bad))
}

/// Adds the lines of the clauses, and the word behind them.
fn add_clause_lines(text: &mut Vec<u8>, clauses: &Clauses) -> Result<(), NoMemory>
    ensures { OnOk result (text.new.items ≡ text.old.items ++ lines_text (clause_lines clauses.now)) }
{
    add_clauses(text, clauses)?;
    add_line(text, b"initial")
}

fn add_clauses(text: &mut Vec<u8>, clauses: &Clauses) -> Result<(), NoMemory>
    ensures { OnOk result (text.new.items ≡ text.old.items ++ lines_text (map literals_text clauses.now)) }
{
    for place in 0..clauses.len() {
        add_clause_line(text, clauses.at(place))?;
    }
    Ok(())
}

/// Adds the lines of the three sections.
fn add_logs(text: &mut Vec<u8>, certificate: &InductiveCert) -> Result<(), NoMemory>
    ensures { OnOk result (text.new.items ≡ text.old.items ++ lines_text (log_lines_of certificate.now)) }
{
    add_section(text, Form::Clausal, Section::Initial, &certificate.initial)?;
    add_section(text, Form::Clausal, Section::Step, &certificate.step)?;
    add_section(text, Form::Clausal, Section::Bad, &certificate.bad)
}
