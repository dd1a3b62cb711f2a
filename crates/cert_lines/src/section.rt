// A section of a certificate.
ghost use Rattle.std.specs.Prelude.{◌≡◌, None, IfOk, IfSome};
ghost use Rattle.cert_lines.specs.Sections.{IsRefusedIn, StandsBehind, query_of};

use crate::entries::{LineStep, SectionChecker};
use crate::{Reading, Refusal};
use cert_theory::{Header, Section};
use clause_text::LineRoom;
use clauses::Cnf;
use psl_base::NoMemory;
use std::alloc::Global;

/// Checks the lines of a section against its formula, from the first of them on: whether the log that they are refutes it.
/// What stands behind the section is left. None where no line is refused, and else the first refusal.
///
/// It takes time in proportion to the lines, to the formula's variables and to the clauses that hints name, and keeps the
/// lemmas that are live.
pub fn check_section(
    alloc: Global,
    header: Header,
    section: Section,
    formula: &Cnf,
    reading: &mut Reading<'_>,
) -> Result<Option<Refusal>, NoMemory>
    ensures stands { IfOk result (λ refusal. refusal ≡ None
        → StandsBehind header section (query_of formula.now) reading.old reading.new) }
    ensures refused { IfOk result (λ refusal. IfSome refusal (IsRefusedIn header section (query_of formula.now) reading.old)) }
{
    let mut checker = SectionChecker::new(alloc, header, section, formula)?;
    let mut room = LineRoom::new(alloc);
    loop {
        let number = reading.line;
        let line = match reading.next() {
            Ok(line) => line,
            Err(refusal) => return Ok(Some(refusal)),
        };
        match checker.take(line, &mut room)? {
            LineStep::Taken => {}
            LineStep::End => return Ok(None),
            LineStep::Refused(reason) => {
                return Ok(Some(Refusal {
                    reason,
                    line: number,
                }));
            }
        }
    }
}
