// One line more.
ghost use Rattle.std.specs.Prelude.{◌≡◌, ℕ, ◌≤◌, List, length, IfOk, IfErr};
ghost use Rattle.cert_theory.specs.declared.header.Asked.{Asked};
ghost use Rattle.cert_theory.specs.Phases.Phase.{AtEnd};
ghost use Rattle.cert_theory.specs.Sections.{Queries};
ghost use Rattle.cert_theory.specs.Texts.{IsAnswer};
ghost use Rattle.psl_base.specs.Places.{file_limit};
ghost use Rattle.cert_lines.specs.Readings.{IsAt, IsCutAt, Takes};

use crate::{Reading, Refusal};
use cert_theory::{CertAnswer, CertReason};
use clause_text::next_line;

impl<'a> Reading<'a> {
    /// A text of which nothing was read.
    pub fn new(text: &'a [u8]) -> Reading<'a>
        requires { length text.now ≤ file_limit }
        ensures rest { result.rest.now ≡ text.now }
        ensures line { result.line ≡ 1 }
    {
        Reading {
            rest: text,
            line: 1,
        }
    }

    /// The next line, without its line feed. Where none ends, the text is cut there.
    pub(crate) fn next(&mut self) -> Result<&'a [u8], Refusal>
        ensures line { IfOk result (λ line. Takes line.now self.old self.new) }
        ensures cut { IfErr result (IsCutAt self.old) }
    {
        let Some((line, rest)) = next_line(self.rest) else {
            return Err(self.refused(CertReason::EndsInside));
        };
        self.rest = rest;
        self.line += 1;
        Ok(line)
    }

    /// The first of the lines that are left is refused.
    pub(crate) fn refused(&self, reason: CertReason) -> Refusal
        ensures reason { result.reason ≡ reason }
        ensures line { result.line ≡ self.now.line }
    {
        Refusal {
            reason,
            line: self.line,
        }
    }

    /// The answer to a text whose last line was read.
    pub fn end(&self) -> CertAnswer
        ensures { (asked : Asked) (queries : Queries) (text : List ℕ) → IsAt asked queries text AtEnd self.now
            → IsAnswer asked queries text result }
    {
        if self.rest.is_empty() {
            CertAnswer::Passed
        } else {
            CertAnswer::Refused(CertReason::TrailingBytes, self.line)
        }
    }
}
