// The lines of a header.
ghost use Rattle.std.specs.Prelude.{◌≡◌, IfOk, IfErr};
ghost use Rattle.cert_theory.specs.Lines.{last_line};
ghost use Rattle.cert_lines.specs.Readings.{IsRefusedBy, Takes};
ghost use Rattle.cert_lines.specs.Fields.{GivesForm, GivesLive, GivesNumber, GivesWindow, IsAskedFor};
ghost use Rattle.cert_lines.specs.Fields.{IsNoAsked, IsNoForm, IsNoLast, IsNoLive, IsNoNumber, IsNoWindow};

use crate::forms::form_of;
use crate::numbers::number_in;
use crate::{Reading, Refusal};
use cert_theory::{Asked, CertReason, Field, Form, Version};
use clauses::MOST_VARIABLES;

impl<'a> Reading<'a> {
    /// The form that the first line names.
    pub(crate) fn form(&mut self) -> Result<Form, Refusal>
        ensures form { IfOk result (λ form. GivesForm form self.old self.new) }
        ensures refused { IfErr result (IsRefusedBy IsNoForm self.old) }
    {
        let bad = self.refused(CertReason::BadHeader);
        let line = self.next()?;
        match form_of(line) {
            Some(form) => Ok(form),
            None => Err(bad),
        }
    }

    /// The number that a line gives.
    pub(crate) fn number(&mut self, field: Field) -> Result<u32, Refusal>
        ensures number { IfOk result (λ number. GivesNumber field number self.old self.new) }
        ensures refused { IfErr result (IsRefusedBy (IsNoNumber field) self.old) }
    {
        let bad = self.refused(CertReason::BadHeader);
        let line = self.next()?;
        match number_in(field, line) {
            Some(number) => Ok(number),
            None => Err(bad),
        }
    }

    /// The line with the number of the directive that is asked for.
    pub(crate) fn asked(&mut self, asked: Asked) -> Result<(), Refusal>
        ensures asked { IfOk result (λ _. IsAskedFor asked self.old self.new) }
        ensures refused { IfErr result (IsRefusedBy (IsNoAsked asked) self.old) }
    {
        let wrong = self.refused(CertReason::WrongAssertion);
        let number = self.number(Field::Assertion)?;
        if number == asked.number && asked.has_claim {
            Ok(())
        } else {
            Err(wrong)
        }
    }

    /// The window, where the certificate has one, and else 1.
    pub(crate) fn window(&mut self, form: Form) -> Result<u32, Refusal>
        ensures window { IfOk result (λ window. GivesWindow form window self.old self.new) }
        ensures refused { IfErr result (IsRefusedBy (IsNoWindow form) self.old) }
    {
        match form {
            Form::Windowed(_) => self.number(Field::Window),
            Form::Clausal => Ok(1),
        }
    }

    /// How many lemmas may be live, where a line says it.
    pub(crate) fn live(&mut self, form: Form) -> Result<u32, Refusal>
        ensures live { IfOk result (λ live. GivesLive form live self.old self.new) }
        ensures refused { IfErr result (IsRefusedBy (IsNoLive form) self.old) }
    {
        match form {
            Form::Windowed(Version::One) => Ok(MOST_VARIABLES),
            Form::Windowed(Version::Two) => self.number(Field::Live),
            Form::Clausal => self.number(Field::Live),
        }
    }

    /// The last line of the header.
    pub(crate) fn last(&mut self, form: Form) -> Result<(), Refusal>
        ensures last { IfOk result (λ _. Takes (last_line form) self.old self.new) }
        ensures refused { IfErr result (IsRefusedBy (IsNoLast form) self.old) }
    {
        let bad = self.refused(CertReason::BadHeader);
        let line = self.next()?;
        if line == last_line(form) {
            Ok(())
        } else {
            Err(bad)
        }
    }
}

/// The last line of the header of a form.
fn last_line(form: Form) -> &'static [u8]
    ensures { result.now ≡ last_line form }
{
    match form {
        Form::Windowed(_) => b"base",
        Form::Clausal => b"clauses",
    }
}
