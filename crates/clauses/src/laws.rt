// What follows from the definitions alone.
ghost use Rattle.std.specs.Prelude.{◌≡◌, ℕ, ℤ, List, IsTrue};
ghost use Rattle.clauses.specs.Literals.{clauses_within};
ghost use Rattle.clauses.specs.Models.{Assignment, IsModel};
ghost use Rattle.clauses.specs.Logs.{LogEntry, Refutes};

/// A law of the definitions: a formula that a log refutes has no model, whatever the log drops on its way.
pub fn refutation_law()
    ensures { (variables : ℕ) (formula : List (List ℤ)) (log : List LogEntry) (values : Assignment)
        → IsTrue (clauses_within variables formula) → Refutes variables formula log → IsModel values formula → ⊥ }
{}
