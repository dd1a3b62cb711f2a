// What follows from the definitions alone.
ghost use Rattle.std.specs.Prelude.{ℕ, List};
ghost use Rattle.cert_theory.specs.Headers.{HasHeader};
ghost use Rattle.cert_theory.specs.Printed.{cert_text, header_of, inductive_header, inductive_text, most_live};
ghost use Rattle.cert_theory.specs.Sections.{Queries, Query};
ghost use Rattle.cert_theory.specs.Texts.{IsAnswer, IsRefusal};
ghost use Rattle.cert_theory.specs.declared.answer.CertAnswer.TheVariants.{Passed};
ghost use Rattle.cert_theory.specs.declared.answer.CertReason.{CertReason};
ghost use Rattle.cert_theory.specs.declared.certificate.Certificate.{Certificate};
ghost use Rattle.cert_theory.specs.declared.certificate.InductiveCert.{InductiveCert};
ghost use Rattle.cert_theory.specs.declared.header.Asked.{Asked};
ghost use Rattle.cert_theory.specs.declared.header.Version.{Version};
ghost use Rattle.cert_text.specs.Evidence.{DropsLive, IsEvidence, IsInductiveEvidence, IsMostLive};
ghost use Rattle.cert_text.specs.Examples.{HasFirstText, HasInductiveText, HasText, IsEvident, IsInductivelyEvident};
ghost use Rattle.clauses.specs.Logs.{LogEntry};

/// A law of the texts: where a certificate is of the directive that is asked for and its logs refute the two formulas,
/// its text is passed in either version, has no refusal, and begins with the header of its numbers. And the number of live lemmas that a header says of a log is
/// the greatest at any moment, where each drop is of a live lemma.
pub fn printed_law()
    ensures passes { (asked : Asked) (queries : Queries) (version : Version) (certificate : Certificate)
        → IsEvidence asked queries certificate → IsAnswer asked queries (cert_text version certificate) Passed }
    ensures refused { (asked : Asked) (queries : Queries) (version : Version) (certificate : Certificate)
        → IsEvidence asked queries certificate → (reason : CertReason) (number : ℕ)
        → IsRefusal asked queries (cert_text version certificate) reason number → ⊥ }
    ensures header { (asked : Asked) (queries : Queries) (version : Version) (certificate : Certificate)
        → IsEvidence asked queries certificate
        → HasHeader asked (cert_text version certificate) (header_of version certificate) }
    ensures live { (query : Query) (log : List LogEntry)
        → DropsLive query log → IsMostLive query log (most_live log) }
{}

/// A law of the texts: where a certificate of clauses is of the directive that is asked for, its clauses name state bits
/// and its logs refute the three formulas, its text is passed, has no refusal, and begins with the header of its numbers.
pub fn inductive_law()
    ensures passes { (asked : Asked) (queries : Queries) (certificate : InductiveCert)
        → IsInductiveEvidence asked queries certificate → IsAnswer asked queries (inductive_text certificate) Passed }
    ensures refused { (asked : Asked) (queries : Queries) (certificate : InductiveCert)
        → IsInductiveEvidence asked queries certificate → (reason : CertReason) (number : ℕ)
        → IsRefusal asked queries (inductive_text certificate) reason number → ⊥ }
    ensures header { (asked : Asked) (queries : Queries) (certificate : InductiveCert)
        → IsInductiveEvidence asked queries certificate
        → HasHeader asked (inductive_text certificate) (inductive_header certificate) }
{}

/// Worked examples of the definitions, as a law: a certificate whose logs refute two formulas, and its text in both
/// versions; and one of clauses, and its text.
#[tactic(auto, using(crate::proofs::ExampleHolds::example))]
pub fn worked_example()
    ensures evidence { IsEvident }
    ensures text { HasText }
    ensures first { HasFirstText }
    ensures inductive { IsInductivelyEvident }
    ensures third { HasInductiveText }
{}
