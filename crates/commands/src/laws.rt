// What follows from the definitions alone.
ghost use Rattle.std.specs.Prelude.{◌≡◌, ◌≤◌, ℕ, List, Option, Result, Ok, Some, length, slice_get};
ghost use Rattle.cert_theory.specs.Printed.{cert_text, inductive_text};
ghost use Rattle.cert_theory.specs.declared.certificate.Certificate.{Certificate};
ghost use Rattle.cert_theory.specs.declared.certificate.InductiveCert.{InductiveCert};
ghost use Rattle.cert_theory.specs.declared.header.Version.TheVariants.{Two};
ghost use Rattle.command_line.specs.Evidences.{Wanted};
ghost use Rattle.command_line.specs.declared.Limits.{Limits};
ghost use Rattle.commands.specs.Checks.{CheckStage, Passes};
ghost use Rattle.commands.specs.Commands.{FirstRefusal};
ghost use Rattle.commands.specs.Provings.{ProveStage};
ghost use Rattle.commands.specs.declared.outcome.CheckedCert.{CheckedCert};
ghost use Rattle.commands.specs.declared.outcome.Fault.{Fault};
ghost use Rattle.commands.specs.declared.prove.Found.{Found};
ghost use Rattle.findings.specs.declared.entry.FindingEntry.{FindingEntry};
ghost use Rattle.prover.specs.declared.finding.Finding.TheVariants.{Proved, ProvedReach};
ghost use Rattle.psl_base.specs.Places.{file_limit};
ghost use Rattle.psl_base.specs.Shelf.{Contents};

/// A law of the definitions: words over contents have one first refusal, or none.
pub fn one_refusal()
    ensures { (words : List (List ℕ)) (files : Contents) (first second : Option Fault) → FirstRefusal words files first → FirstRefusal words files second → first ≡ second }
{}

/// A law of the definitions: what `prove` writes of a proof is passed by `check`. Where a file has the text of the certificate
/// of a proof, and is no longer than a file may be, `check` passes it for the same text, netlist and number. So it
/// is of a certificate of a window, and of one of clauses.
pub fn written_law()
    ensures passed { (unit netlist certificate : List ℕ) (limits : Limits) (wanted : Wanted) (files later : Contents) (found : Found) (place : ℕ)
        (entry : FindingEntry) (evidence : Certificate) (result : Result CheckedCert Fault)
        → ProveStage unit netlist limits wanted files (Ok found) → slice_get found.findings place ≡ Some entry
        → entry.finding ≡ Proved evidence → later unit ≡ files unit → later netlist ≡ files netlist
        → later certificate ≡ Some (cert_text Two evidence) → length (cert_text Two evidence) ≤ file_limit
        → CheckStage unit netlist entry.number certificate later result → Passes result }
    ensures passed_reach { (unit netlist certificate : List ℕ) (limits : Limits) (wanted : Wanted) (files later : Contents) (found : Found) (place : ℕ)
        (entry : FindingEntry) (evidence : InductiveCert) (result : Result CheckedCert Fault)
        → ProveStage unit netlist limits wanted files (Ok found) → slice_get found.findings place ≡ Some entry
        → entry.finding ≡ ProvedReach evidence → later unit ≡ files unit → later netlist ≡ files netlist
        → later certificate ≡ Some (inductive_text evidence) → length (inductive_text evidence) ≤ file_limit
        → CheckStage unit netlist entry.number certificate later result → Passes result }
{}
