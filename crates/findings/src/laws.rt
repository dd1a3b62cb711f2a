// What follows from the definitions alone.
ghost use Rattle.std.specs.Prelude.{◌≡◌, ◌⊎◌, ℕ, Bool, List, length, Option, Result, Ok, Err, IfOk, IfErr};
ghost use Rattle.cert_check.specs.Claims.{asked_of, queries_of};
ghost use Rattle.cert_check.specs.Limits.{IsFault};
ghost use Rattle.psl_tree.specs.declared.limit.LimitFault.{LimitFault};
ghost use Rattle.cert_theory.specs.Printed.{cert_text, inductive_text};
ghost use Rattle.cert_theory.specs.Texts.{IsAnswer};
ghost use Rattle.cert_theory.specs.declared.answer.CertAnswer.{CertAnswer};
ghost use Rattle.cert_theory.specs.declared.certificate.Certificate.{Certificate};
ghost use Rattle.cert_theory.specs.declared.certificate.InductiveCert.{InductiveCert};
ghost use Rattle.cert_theory.specs.declared.header.Version.{Version};
ghost use Rattle.findings.specs.Entries.{IsEntry};
ghost use Rattle.findings.specs.Recordings.{Form, along};
ghost use Rattle.findings.specs.declared.entry.FindingEntry.{FindingEntry};
ghost use Rattle.netlist.specs.Design.{Design};
ghost use Rattle.netlist.specs.Runs.{word};
ghost use Rattle.netlist.specs.declared.run.Run.{Run};
ghost use Rattle.prover.specs.declared.finding.Finding.TheVariants.{Proved, ProvedReach};
ghost use Rattle.prover.specs.declared.options.Options.{Options};
ghost use Rattle.prover_held.specs.Held.{IsHeldRun};
ghost use Rattle.psl_tree.specs.Trace.{first, trace_of};
ghost use Rattle.psl_tree.specs.declared.directive.Directive.{Directive};

/// A law of the definitions: where a directive is proved and `check_cert` is asked about the text of its certificate, for
/// the same text, number and netlist, it answers that it is passed, unless memory is refused. A certificate of a window has
/// a text in either version, and one of clauses has one text. What is said of its result is what `check_cert` says of it.
pub fn passed_law()
    ensures passed { (design : Design) (unit : List Directive) (options : Options) (wanted : Option Form) (directive : Directive)
        (entry : FindingEntry) (certificate : Certificate) (version : Version) (result : Result CertAnswer LimitFault)
        → IsEntry design unit options wanted directive entry → entry.finding ≡ Proved certificate
        → IfOk result (IsAnswer (asked_of unit entry.number) (queries_of design unit entry.number) (cert_text version certificate))
        → IfErr result (IsFault design unit entry.number (cert_text version certificate))
        → (result ≡ Ok CertAnswer.Passed) ⊎ (result ≡ Err LimitFault.NoMemory) }
    ensures passed_reach { (design : Design) (unit : List Directive) (options : Options) (wanted : Option Form) (directive : Directive)
        (entry : FindingEntry) (certificate : InductiveCert) (result : Result CertAnswer LimitFault)
        → IsEntry design unit options wanted directive entry → entry.finding ≡ ProvedReach certificate
        → IfOk result (IsAnswer (asked_of unit entry.number) (queries_of design unit entry.number) (inductive_text certificate))
        → IfErr result (IsFault design unit entry.number (inductive_text certificate))
        → (result ≡ Ok CertAnswer.Passed) ⊎ (result ≡ Err LimitFault.NoMemory) }
{}

/// A law of the definitions: the letters on which the recording of a path is judged are the first ones of the word of each
/// run that begins with the path and then holds its inputs.
pub fn held_letters_law()
    ensures { (design : Design) (path : List (List Bool)) (run : Run) → IsHeldRun design path run
        → first (length path) (trace_of (word design (along path))) ≡ first (length path) (trace_of (word design run)) }
{}
