// The header of a certificate.
ghost use Rattle.std.specs.Prelude.{◌≡◌, IfOk, IfErr};
ghost use Rattle.cert_theory.specs.declared.header.Header.{Header};
ghost use Rattle.cert_theory.specs.Headers.{HasHeader};
ghost use Rattle.cert_theory.specs.Phases.{behind_header};
ghost use Rattle.cert_theory.specs.Sections.{Queries};
ghost use Rattle.cert_lines.specs.Readings.{IsAt, RefusesAs};

use crate::{Reading, Refusal};
use cert_theory::{Asked, Field, Header};

/// Reads the header of a certificate of the directive that is asked for, from the first line on.
///
/// # Errors
///
/// The first refusal of the text, where it stands at one of the header's lines.
pub fn read_header(asked: Asked, reading: &mut Reading<'_>) -> Result<Header, Refusal>
    requires { reading.old.line ≡ 1 }
    ensures header { IfOk result (HasHeader asked reading.old.rest.now) }
    ensures behind { IfOk result (λ header. (queries : Queries)
        → IsAt asked queries reading.old.rest.now (behind_header header) reading.new) }
    ensures refused { IfErr result (λ refusal. (queries : Queries)
        → RefusesAs asked queries reading.old.rest.now refusal) }
    ensures none { IfErr result (λ _. (header : Header) → HasHeader asked reading.old.rest.now header → ⊥) }
{
    let form = reading.form()?;
    reading.asked(asked)?;
    let visits = reading.number(Field::Visits)?;
    let window = reading.window(form)?;
    let live = reading.live(form)?;
    reading.last(form)?;
    Ok(Header {
        form,
        visits,
        window,
        live,
    })
}
