ghost use Rattle.std.specs.Prelude.{◌≡◌, ℕ, ◌<◌, ◌≤◌, [], true, false, length, OnOk, IfOk, IfErr, List};
ghost use Rattle.psl_base.specs.Tokens.{PlacedToken, ◌▸◌};
ghost use Rattle.vcd_reader.specs.Declarations.{Declared};
ghost use Rattle.vcd_reader.specs.Running.{run, GoesOn, wants_part, wants_end};
ghost use Rattle.vcd_reader.specs.Shapes.{is_end};
ghost use Rattle.vcd_reader.specs.Standing.{Part, Open, Ready, InComment};
ghost use Rattle.vcd_reader.specs.declared.changes.Change.{Change};

use crate::{VcdFault, shape};
use psl_base::{Cursor, Token};

/// The next token, where the text may not end.
pub fn wanted<'a>(cursor: &mut Cursor<'a>) -> Result<Token<'a>, VcdFault>
    ensures ok { IfOk result (λ token. cursor.old ≡ token ▸ cursor.new) }
    ensures end { IfErr result (λ _. cursor.old.tokens ≡ []) }
    ensures err { IfErr result (λ fault. fault ≡ VcdFault.EndsInside cursor.old.end) }
    ensures fewer { OnOk result (length cursor.new.tokens < length cursor.old.tokens) }
{
    match cursor.next() {
        Some(token) => Ok(token),
        None => Err(VcdFault::EndsInside(cursor.end())),
    }
}

/// A part of a declaration: a token that is not `$end`.
pub fn part<'a>(cursor: &mut Cursor<'a>) -> Result<Token<'a>, VcdFault>
    ensures ok { IfOk result (λ token. cursor.old ≡ token ▸ cursor.new) }
    ensures part { IfOk result (λ token. is_end token.text ≡ false) }
    ensures err { IfErr result (λ fault. (d : Declared) (p : Part) (changes : List (List Change)) (starts : List ℕ) (o : Open) → wants_part o ≡ true → run d p changes starts o cursor.old ≡ Err fault) }
    ensures fewer { OnOk result (length cursor.new.tokens < length cursor.old.tokens) }
{
    let token = wanted(cursor)?;
    if shape::end(token.text()) {
        return Err(VcdFault::BadVar(token.place()));
    }
    Ok(token)
}

/// The `$end` of a section.
pub fn end(cursor: &mut Cursor) -> Result<(), VcdFault>
    ensures ok { OnOk result ((t : PlacedToken) × (cursor.old ≡ t ▸ cursor.new) × (is_end t.text ≡ true)) }
    ensures err { IfErr result (λ fault. (d : Declared) (p : Part) (changes : List (List Change)) (starts : List ℕ) (o : Open) → wants_end o ≡ true → run d p changes starts o cursor.old ≡ Err fault) }
    ensures fewer { OnOk result (length cursor.new.tokens < length cursor.old.tokens) }
{
    let token = wanted(cursor)?;
    if !shape::end(token.text()) {
        return Err(VcdFault::MissingEnd(token.place()));
    }
    Ok(())
}

/// Passes over the tokens of a comment or a header, up to the first `$end`.
pub fn comment(cursor: &mut Cursor) -> Result<(), VcdFault>
    ensures goes { (d : Declared) (p : Part) (changes : List (List Change)) (starts : List ℕ) → GoesOn result (run d p changes starts InComment cursor.old) (run d p changes starts Ready cursor.new) }
    ensures fewer { OnOk result (length cursor.new.tokens < length cursor.old.tokens) }
{
    loop {
        let token = wanted(cursor)?;
        if shape::end(token.text()) {
            return Ok(());
        }
    }
}
