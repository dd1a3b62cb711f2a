// The first line of a header.
ghost use Rattle.std.specs.Prelude.{◌≡◌, IfNone, IfSome};
ghost use Rattle.cert_theory.specs.Lines.{form_line};
ghost use Rattle.cert_theory.specs.declared.header.Form.{Form};

use cert_theory::{Form, Version};

/// The form whose first line this is.
pub(crate) fn form_of(line: &[u8]) -> Option<Form>
    ensures some { IfSome result (λ form. line.now ≡ form_line form) }
    ensures none { IfNone result ((form : Form) → line.now ≡ form_line form → ⊥) }
{
    if line == b"pslc-cert 1".as_slice() {
        Some(Form::Windowed(Version::One))
    } else if line == b"pslc-cert 2".as_slice() {
        Some(Form::Windowed(Version::Two))
    } else if line == b"pslc-cert 3".as_slice() {
        Some(Form::Clausal)
    } else {
        None
    }
}
