// What follows from the definitions alone.
ghost use Rattle.std.specs.Prelude.{◌≡◌, ℕ, ℤ, List};
ghost use Rattle.cert_theory.specs.declared.answer.CertAnswer.{CertAnswer};
ghost use Rattle.cert_theory.specs.declared.header.Asked.{Asked};
ghost use Rattle.cert_theory.specs.declared.header.Header.{Header};
ghost use Rattle.cert_theory.specs.Examples.{Passes, FirstVersionPasses, ThirdVersionPasses, FourthVersion, OfAnother, NoWindow, CutBehindLine};
ghost use Rattle.cert_theory.specs.Examples.{CutInsideLine, NoHints, NoneMayLive, DropOfFormula, NothingShown};
ghost use Rattle.cert_theory.specs.Examples.{LemmaBehindEmpty, OneMoreByte, NoStateBit, NoClauseLine, NothingInitial};
ghost use Rattle.cert_theory.specs.Headers.{HasHeader};
ghost use Rattle.cert_theory.specs.Sections.{Queries};
ghost use Rattle.cert_theory.specs.Shown.{IsShown};
ghost use Rattle.cert_theory.specs.Texts.{HasClauses, IsAnswer, IsPassed};

/// Worked examples of the definitions, as laws: texts of certificates, and what is answered to them.
#[tactic(auto, using(crate::proofs::ExamplesHold::examples))]
pub fn worked_examples()
    ensures passes { Passes }
    ensures first { FirstVersionPasses }
    ensures third { ThirdVersionPasses }
    ensures fourth { FourthVersion }
    ensures another { OfAnother }
    ensures window { NoWindow }
    ensures cut { CutBehindLine }
    ensures inside { CutInsideLine }
    ensures hints { NoHints }
    ensures live { NoneMayLive }
    ensures formula { DropOfFormula }
    ensures nothing { NothingShown }
    ensures behind { LemmaBehindEmpty }
    ensures more { OneMoreByte }
    ensures bit { NoStateBit }
    ensures clause { NoClauseLine }
    ensures initial { NothingInitial }
{}

/// A law of the definitions: a text has one answer. So it is passed only where no line of it is refused, and where some
/// line is, the first refusal is one line's, for one reason.
#[tactic(auto, using(crate::proofs::OneAnswer::one_answer))]
pub fn one_answer_law()
    ensures answer { (asked : Asked) (queries : Queries) (text : List ℕ) (answer other : CertAnswer)
        → IsAnswer asked queries text answer → IsAnswer asked queries text other → answer ≡ other }
{}

/// A law of the definitions: a text begins with one header at most, and has one list of clauses behind it at most.
pub fn one_header_law()
    ensures header { (asked : Asked) (text : List ℕ) (header other : Header) → HasHeader asked text header
        → HasHeader asked text other → header ≡ other }
    ensures clauses { (asked : Asked) (queries : Queries) (text : List ℕ) (header other : Header)
        (clauses others : List (List ℤ)) → HasClauses asked queries text header clauses
        → HasClauses asked queries text other others → clauses ≡ others }
{}

/// A law of the definitions: where the text of a certificate is passed, it begins with a header of what was asked for, which
/// claims something, and its numbers are in their ranges. With a window both formulas of the header's visits and window are
/// refuted, and else the three formulas of its visits and of the clauses behind it, which are over the state bits.
pub fn shown_law()
    ensures shown { (asked : Asked) (queries : Queries) (text : List ℕ) → IsPassed asked queries text
        → IsShown asked queries text }
{}
