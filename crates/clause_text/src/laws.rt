// What follows from the definitions alone.
ghost use Rattle.std.specs.Prelude.{◌≡◌, ℕ, Bool, true, false, List};
ghost use Rattle.clauses.specs.Logs.{LogEntry};
ghost use Rattle.clause_text.specs.declared.fault.LogFault.{LogFault};
ghost use Rattle.clause_text.specs.Lines.{lines_of, lemmas_alone};
ghost use Rattle.clause_text.specs.Readings.{IsReadable, StandsFor, IsFirstFault};

/// A law of the lines: those of a log whose words are not too many stand for that log, and a text stands for at most one
/// log, and has no fault where it does. The same of lemma lines and a log without its drops.
pub fn one_log_law()
    ensures lines { (log : List LogEntry) → IsReadable log → StandsFor true (lines_of log) log }
    ensures lemma_lines { (log : List LogEntry) → IsReadable log
        → StandsFor false (lines_of (lemmas_alone log)) (lemmas_alone log) }
    ensures one { (drops : Bool) (text : List ℕ) (log other : List LogEntry)
        → StandsFor drops text log → StandsFor drops text other → log ≡ other }
    ensures faultless { (drops : Bool) (text : List ℕ) (log : List LogEntry) (fault : LogFault)
        → StandsFor drops text log → IsFirstFault drops text fault → fault ≡ LogFault.NoMemory }
{}
