// Whether a lemma follows by unit propagation with its hints.
ghost use Rattle.std.specs.Prelude.{◌≡◌, ℕ, neg_ℤ, List, [], ◌∷◌, ◌++◌, ◌↔◌, true, IsTrue, IfOk, OnOk};
ghost use Rattle.clauses.specs.Literals as spec;
ghost use Rattle.clause_log.specs.LiveClauses.{Fits, Follows, HintsPass};

use crate::literal_set::LiteralSet;
use crate::live::{Live, left_of};
use psl_base::NoMemory;

/// Whether a lemma of these literals passes with these hints: its literals are of the formula's variables, and the
/// clauses that the hints name refute their negations by unit propagation. The set is empty before and after.
pub(crate) fn lemma_passes(
    live: &Live<'_>,
    set: &mut LiteralSet,
    literals: &[i32],
    hints: &[u32],
) -> Result<bool, NoMemory>
    requires fits { Fits live.now set.old }
    requires empty { set.old.members ≡ [] }
    ensures passes { IfOk result (λ passes. IsTrue passes ↔ Follows live.now literals.now hints.now) }
    ensures set { set.new ≡ set.old }
{
    let passes = marked_passes(live, set, literals, hints);
    set.clear();
    passes
}

/// The same, with the literals that count as false left in the set.
fn marked_passes(
    live: &Live<'_>,
    set: &mut LiteralSet,
    literals: &[i32],
    hints: &[u32],
) -> Result<bool, NoMemory>
    requires fits { Fits live.now set.old }
    requires empty { set.old.members ≡ [] }
    ensures passes { IfOk result (λ passes. IsTrue passes ↔ Follows live.now literals.now hints.now) }
    ensures variables { set.new.variables ≡ set.old.variables }
{
    if !mark_lemma(set, live.formula.variables, literals)? {
        return Ok(false);
    }
    hints_pass(live, set, hints)
}

/// Puts the literals of a lemma into a set, if they are all of one of the variables.
fn mark_lemma(set: &mut LiteralSet, variables: u32, literals: &[i32]) -> Result<bool, NoMemory>
    requires variables { set.old.variables ≡ variables }
    requires empty { set.old.members ≡ [] }
    ensures within { IfOk result (λ within. within ≡ spec.clause_within variables literals.now) }
    ensures marked { result ≡ Ok true → set.new.members ≡ literals.now }
    ensures same { set.new.variables ≡ set.old.variables }
{
    for literal in literals {
        if !is_within(variables, *literal) {
            return Ok(false);
        }
        set.insert(*literal)?;
    }
    Ok(true)
}

/// Whether a literal is of one of the first so many variables.
fn is_within(variables: u32, literal: i32) -> bool
    ensures { result ≡ spec.is_within variables literal }
{
    let variable = literal.unsigned_abs();
    variable > 0 && variable <= variables
}

/// Whether the hints refute that the literals of the set are all false.
fn hints_pass(live: &Live<'_>, set: &mut LiteralSet, hints: &[u32]) -> Result<bool, NoMemory>
    requires { Fits live.now set.old }
    ensures passes { IfOk result (λ passes. IsTrue passes ↔ HintsPass live.now set.old.members hints.now) }
    ensures variables { set.new.variables ≡ set.old.variables }
{
    let mut rest = hints;
    while let Some((hint, others)) = rest.split_first() {
        if others.is_empty() {
            return Ok(is_falsified(live, set, *hint));
        }
        if !propagate(live, set, *hint)? {
            return Ok(false);
        }
        rest = others;
    }
    Ok(false)
}

/// Whether a number names a live clause whose literals are all in the set.
fn is_falsified(live: &Live<'_>, set: &LiteralSet, hint: u32) -> bool
    requires { Fits live.now set.now }
    ensures { IsTrue result ↔ HintsPass live.now set.now.members (hint ∷ []) }
{
    match left_of(live, set, hint) {
        Some(left) => left.is_nothing(),
        None => false,
    }
}

/// Whether a number names a live clause whose literals are all in the set but one, whose negation is then put in.
fn propagate(live: &Live<'_>, set: &mut LiteralSet, hint: u32) -> Result<bool, NoMemory>
    requires { Fits live.now set.old }
    ensures passes { IfOk result (λ passes. (next : ℕ) (hints : List ℕ)
        → HintsPass live.now set.old.members (hint ∷ (next ∷ hints))
        ↔ (IsTrue passes × HintsPass live.now set.new.members (next ∷ hints))) }
    ensures variables { set.new.variables ≡ set.old.variables }
{
    let Some(left) = left_of(live, set, hint) else {
        return Ok(false);
    };
    let Some(literal) = left.only() else {
        return Ok(false);
    };
    set.insert(negated(literal))?;
    Ok(true)
}

fn negated(literal: i32) -> i32
    requires { spec.is_literal literal ≡ true }
    ensures { result ≡ neg_ℤ literal }
{
    -literal
}
