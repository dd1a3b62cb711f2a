ghost use Rattle.std.specs.Prelude.{◌≡◌, ◌++◌, None, OnOk};
ghost use Rattle.commands.specs.Text.{cert_answer, checked_line, reason_words};

use crate::outcome::CheckedCert;
use crate::printing::add_head;
use cert_check::{CertAnswer, CertReason};
use psl_base::{NoMemory, add_bytes, add_number};

/// The line of what is answered to the certificate of a directive.
pub(crate) fn add_checked(
    text: &mut Vec<u8>,
    number: u32,
    checked: CheckedCert,
) -> Result<(), NoMemory>
    ensures { OnOk result (text.new.items ≡ text.old.items ++ checked_line number checked) }
{
    add_head(text, checked.kind, number, &None)?;
    add_answer(text, checked.answer)?;
    add_bytes(text, b"\n")
}

fn add_answer(text: &mut Vec<u8>, answer: CertAnswer) -> Result<(), NoMemory>
    ensures { OnOk result (text.new.items ≡ text.old.items ++ cert_answer answer) }
{
    match answer {
        CertAnswer::Passed => add_bytes(text, b"passed"),
        CertAnswer::Refused(reason, line) => {
            add_bytes(text, b"refused ")?;
            add_bytes(text, reason_text(reason))?;
            add_bytes(text, b" line ")?;
            add_number(text, line)
        }
    }
}

/// The code and the name of a reason.
fn reason_text(reason: CertReason) -> &'static [u8]
    ensures { result.now ≡ reason_words reason }
{
    match reason {
        CertReason::BadHeader => b"C1 BadHeader",
        CertReason::BadLine => b"C2 BadLine",
        CertReason::WrongAssertion => b"C3 WrongAssertion",
        CertReason::LemmaFails => b"C4 LemmaFails",
        CertReason::NoEmptyClause => b"C5 NoEmptyClause",
        CertReason::EndsInside => b"C6 EndsInside",
        CertReason::TrailingBytes => b"C7 TrailingBytes",
        CertReason::TooManyLive => b"C8 TooManyLive",
        CertReason::BadDrop => b"C9 BadDrop",
        CertReason::BadClause => b"C10 BadClause",
    }
}
