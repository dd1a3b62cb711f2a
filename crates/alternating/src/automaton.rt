ghost use Rattle.std.specs.Prelude.{◌≡◌, ◌↔◌, ◌+◌, ◌*◌, ◌^◌, ◌≤◌, ◌<◌, [], length, IsTrue, IfErr, IfOk};
ghost use Rattle.psl_tree.specs.Clockless.{IsPlain};
ghost use Rattle.psl_tree.specs.Followed.{Nothing, Tops, Bottoms};
ghost use Rattle.psl_tree.specs.Counts.{obligations_of, states_of};
ghost use Rattle.psl_tree.specs.Trees.{formula_of, sequence_of};
ghost use Rattle.alternating_theory.specs.LoopLaws.{LoopsOf};
ghost use Rattle.alternating_theory.specs.Laws.{ValuesOf, NamesOf, SizeOf};
ghost use Rattle.alternating_theory.specs.Merged.{merged};
ghost use Rattle.alternating_theory.specs.Obligations.{obligation_at};
ghost use Rattle.alternating_theory.specs.Positive.{OwesWithin};
ghost use Rattle.alternating_theory.specs.Built.{built, unmerged};
ghost use Rattle.alternating_theory.specs.Trimmed.{trimmed};
ghost use Rattle.alternating_theory.specs.Atoms.{KeepsAtoms};
ghost use Rattle.alternating.specs.Limits.{HasLargeSequence, MayPass};
ghost use Rattle.alternating.specs.Packed.{letter_of};
ghost use Rattle.alternating.specs.Stepped.{stepped, values_of, StepsBack};
ghost use Rattle.alternating.specs.Views.{positive_of, obligations_of_code, ObligationsWithin};

use crate::build::build;
use crate::marking::reached_marks;
use crate::merge::{class_names, classes_of, firsts};
use crate::obligation::Obligation;
use crate::part::{Part, add};
use crate::pending::settle_all;
use crate::positive::Positive;
use crate::step::{Beyond, fill, step};
use crate::trim::{kept, names_of};
use crate::truths::Truths;
use psl_base::NoMemory;
use psl_tree::{
    Atoms, Fl, Limit, LimitFault, MOST_OBLIGATIONS, MOST_STATES, Sere, obligations, states,
};
use std::alloc::Global;
use std::marker::Model;

/// An alternating automaton. Contracts see it as its obligations in order, and the number of the one
/// that is owed at the first place.
#[derive(Debug, Drop)]
pub struct Alternating {
    pub(crate) start: u32,
    pub(crate) obligations: Vec<Obligation>,
}

impl Model for Alternating {
    ghost use Rattle.alternating_theory.specs.Obligations.{Automaton};
    ghost use Rattle.alternating.specs.Codes.{automaton_code};

    ghost Value = { Automaton };

    ghost coded = { automaton_code };

    ghost use Rattle.alternating.specs.AlternatingView.{automaton_of, IsWhole};

    ghost view = { automaton_of };

    ghost invariant = { IsWhole };
}

impl Alternating {
    /// How many obligations there are. They are numbered from 0 on.
    pub fn len(&self) -> u32
        ensures { result ≡ length self.now.obligations }
    {
        self.obligations.len() as u32
    }

    /// The obligation that is owed at the first place, by its number. There are at most 2,048 of them.
    pub fn start(&self) -> u32
        ensures shown { result ≡ self.now.start }
        ensures below { result < length self.now.obligations }
        ensures few { length self.now.obligations ≤ MOST_OBLIGATIONS }
    {
        self.start
    }

    /// What an obligation asks of the letter and of the next place. Obligations are counted from 0.
    pub fn delta(&self, q: u32) -> &Positive
        requires { q < length self.now.obligations }
        ensures shown { positive_of result.now ≡ (obligation_at self.now.obligations q).delta }
        ensures below { OwesWithin 0 (length self.now.obligations) (positive_of result.now) }
    {
        let found = &self.obligations[q as usize];
        &found.delta
    }

    /// Whether an obligation may be owed for ever. Obligations are counted from 0.
    pub fn accepting(&self, q: u32) -> bool
        requires { q < length self.now.obligations }
        ensures { result ≡ (obligation_at self.now.obligations q).accepting }
    {
        let found = &self.obligations[q as usize];
        found.accepting
    }

    /// An obligation's value where the word has ended. Obligations are counted from 0.
    pub fn end(&self, q: u32) -> bool
        requires { q < length self.now.obligations }
        ensures { result ≡ (obligation_at self.now.obligations q).end }
    {
        let found = &self.obligations[q as usize];
        found.end
    }

    /// An obligation's value on Top for ever. Obligations are counted from 0.
    pub fn top(&self, q: u32) -> bool
        requires { q < length self.now.obligations }
        ensures { result ≡ (obligation_at self.now.obligations q).top }
    {
        let found = &self.obligations[q as usize];
        found.top
    }

    /// An obligation's value on Bottom for ever. Obligations are counted from 0.
    pub fn bottom(&self, q: u32) -> bool
        requires { q < length self.now.obligations }
        ensures { result ≡ (obligation_at self.now.obligations q).bottom }
    {
        let found = &self.obligations[q as usize];
        found.bottom
    }

    /// Writes the values of all obligations where the word has ended. It takes no memory.
    pub fn ends(&self, into: &mut Truths)
        requires { length into.old ≡ length self.now.obligations }
        ensures { into.new ≡ values_of self.now Nothing [] }
    {
        fill(self.obligations.as_slice(), Beyond::End, into);
    }

    /// Writes the values of all obligations on Top for ever. It takes no memory.
    pub fn tops(&self, into: &mut Truths)
        requires { length into.old ≡ length self.now.obligations }
        ensures { into.new ≡ values_of self.now Tops [] }
    {
        fill(self.obligations.as_slice(), Beyond::Top, into);
    }

    /// Writes the values of all obligations on Bottom for ever. It takes no memory.
    pub fn bottoms(&self, into: &mut Truths)
        requires { length into.old ≡ length self.now.obligations }
        ensures { into.new ≡ values_of self.now Bottoms [] }
    {
        fill(self.obligations.as_slice(), Beyond::Bottom, into);
    }

    /// Writes the values of all obligations at a place, from its letter and their values at the next
    /// place. The letter is packed: the bit of a number, the lowest of the first word first, says
    /// whether the atom of that number holds, and no other atom does. It takes no memory.
    pub fn step_back(&self, letter: &[u32], atoms: &Atoms, next: &Truths, into: &mut Truths)
        requires bits { length atoms.now ≤ 32 * length letter.now }
        requires next_len { length next.now ≡ length self.now.obligations }
        requires into_len { length into.old ≡ length self.now.obligations }
        ensures step { into.new ≡ stepped self.now (letter_of atoms.now letter.now) next.now }
        ensures values { StepsBack self.now atoms.now letter.now next.now into.new }
    {
        step(
            self.obligations.as_slice(),
            letter,
            atoms.as_slice(),
            next,
            into,
        );
    }
}

/// The alternating automaton of a formula without clocks and synchronous aborts. On every finite word
/// its value is satisfaction in the neutral view, with `top` past the last place in the weak view and
/// with `bottom` in the strong view (IEEE 1850, Annex B). It accepts each word with a loop exactly where
/// the word satisfies the formula.
///
/// # Errors
///
/// `Limit::Sere` comes exactly where a sequence of the formula counts more than 1,024 states, `Limit::Automaton` where none
/// does and the formula counts more than 2,048 obligations, and no other limit. `NoMemory` if memory is refused.
pub fn of(alloc: Global, f: &Fl) -> Result<Alternating, LimitFault>
    requires { IsPlain (formula_of f.now) }
    ensures built { IfOk result (λ automaton. automaton ≡ built (formula_of f.now)) }
    ensures values { IfOk result (λ automaton. ValuesOf automaton (formula_of f.now)) }
    ensures loops { IfOk result (λ automaton. LoopsOf automaton (formula_of f.now)) }
    ensures names { IfOk result (λ automaton. NamesOf automaton) }
    ensures size { IfOk result (λ automaton. SizeOf automaton (formula_of f.now)) }
    ensures atoms { IfOk result (λ automaton. KeepsAtoms automaton (formula_of f.now)) }
    ensures sere_too_large { (result ≡ Err (LimitFault.TooLarge Limit.Sere)) ↔ HasLargeSequence (formula_of f.now) }
    ensures too_large { (result ≡ Err (LimitFault.TooLarge Limit.Automaton)) ↔ ((HasLargeSequence (formula_of f.now) → ⊥) × (MOST_OBLIGATIONS < obligations_of (formula_of f.now))) }
    ensures fault { IfErr result (MayPass (formula_of f.now)) }
{
    if has_large_sequence(f) {
        return Err(LimitFault::TooLarge(Limit::Sere));
    }
    if obligations(f) > MOST_OBLIGATIONS {
        return Err(LimitFault::TooLarge(Limit::Automaton));
    }
    match finished(alloc, f) {
        Ok(automaton) => Ok(automaton),
        Err(NoMemory) => Err(LimitFault::NoMemory),
    }
}

/// Whether some sequence of the formula counts more than 1,024 states, so that there is no automaton of it.
pub fn has_large_sequence(f: &Fl) -> bool
    ensures { IsTrue result ↔ HasLargeSequence (formula_of f.now) }
{
    match f {
        Fl::Now(_) | Fl::NowStrong(_) => false,
        Fl::Weak(sequence) | Fl::Strong(sequence) => is_large(sequence),
        Fl::Not(part) | Fl::Next(part) => has_large_sequence(part),
        Fl::And(left, right) | Fl::Until(left, right) => {
            has_large_sequence(left) || has_large_sequence(right)
        }
        Fl::Suffix(sequence, part) => is_large(sequence) || has_large_sequence(part),
        Fl::Abort(part, _) | Fl::SyncAbort(part, _) | Fl::Clocked(part, _) => {
            has_large_sequence(part)
        }
    }
}

fn is_large(sequence: &Sere) -> bool
    ensures { IsTrue result ↔ (MOST_STATES < states_of (sequence_of sequence.now)) }
{
    states(sequence) > MOST_STATES
}

// The automaton of a formula whose obligations can be numbered.
fn finished(alloc: Global, f: &Fl) -> Result<Alternating, NoMemory>
    requires plain { IsPlain (formula_of f.now) }
    requires small { HasLargeSequence (formula_of f.now) → ⊥ }
    requires room { obligations_of (formula_of f.now) ≤ MOST_OBLIGATIONS }
    ensures { IfOk result (λ automaton. automaton ≡ built (formula_of f.now)) }
{
    let whole = unmerged(alloc, f)?;
    let found = merged(alloc, whole.obligations.as_slice(), whole.start)?;
    Ok(found)
}

// The same, before obligations are merged.
fn unmerged(alloc: Global, f: &Fl) -> Result<Alternating, NoMemory>
    requires plain { IsPlain (formula_of f.now) }
    requires small { HasLargeSequence (formula_of f.now) → ⊥ }
    requires room { obligations_of (formula_of f.now) ≤ MOST_OBLIGATIONS }
    ensures { IfOk result (λ automaton. automaton ≡ unmerged (formula_of f.now)) }
{
    let Part {
        start: first,
        mut rest,
    } = build(alloc, 0, f)?;
    let start = rest.len() as u32;
    add(&mut rest, first)?;
    let obligations = settle_all(alloc, rest)?;
    trimmed(alloc, obligations.as_slice(), start)
}

// Of obligations that ask the same the first, in one pass.
fn merged(alloc: Global, obligations: &[Obligation], start: u32) -> Result<Alternating, NoMemory>
    requires names { NamesOf (record { start = start; obligations = obligations_of_code obligations.now }) }
    requires room { length obligations.now ≤ MOST_OBLIGATIONS }
    ensures { IfOk result (λ automaton. automaton ≡ merged (record { start = start; obligations = obligations_of_code obligations.now })) }
{
    let classes = classes_of(alloc, obligations, start)?;
    let marks = firsts(alloc, classes.as_slice())?;
    let names = names_of(alloc, marks.as_slice())?;
    let new = class_names(alloc, classes.as_slice(), names.as_slice())?;
    let found = kept(alloc, obligations, marks.as_slice(), new.as_slice())?;
    Ok(Alternating {
        start: names[start as usize],
        obligations: found,
    })
}

// Of the obligations those that are reached from the start, the last.
fn trimmed(alloc: Global, obligations: &[Obligation], start: u32) -> Result<Alternating, NoMemory>
    requires within { ObligationsWithin 0 start obligations.now }
    requires last { length obligations.now ≡ start + 1 }
    requires room { length obligations.now ≤ MOST_OBLIGATIONS }
    ensures { IfOk result (λ automaton. automaton ≡ trimmed (obligations_of_code obligations.now) start) }
{
    let marks = reached_marks(alloc, obligations, start)?;
    let names = names_of(alloc, marks.as_slice())?;
    let found = kept(alloc, obligations, marks.as_slice(), names.as_slice())?;
    Ok(Alternating {
        start: names[start as usize],
        obligations: found,
    })
}
