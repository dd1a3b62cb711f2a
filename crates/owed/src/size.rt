ghost use Rattle.std.specs.Prelude.{◌≡◌, List, Option, None, Some, IfOk};
ghost use Rattle.owed.specs.Owed.{broken, claimed, joined, plain_assumed, plain_owed, under, with_directive};
ghost use Rattle.owed.specs.Sizes.{AreSizesOf, IsSizeOf};
ghost use Rattle.psl_tree.specs.Plain.{plain};
ghost use Rattle.psl_tree.specs.Trees.{Formula, Not, And, formula_of};
ghost use Rattle.psl_tree.specs.declared.directive.Directive.{Directive};

use crate::kinds::is_assumed;
use alternating::has_large_sequence;
use clock_rewrite::unclock;
use psl_base::NoMemory;
use psl_tree::{Directive, Fl, Kind, Unit, measure, obligations};
use std::alloc::Global;

/// How large a formula is.
#[derive(Clone, Copy, Debug)]
pub struct Size {
    /// Whether some sequence of it counts more than 1,024 states.
    pub has_large_sequence: bool,
    /// How many obligations it counts. It stays at 2^64 - 1 once it is there.
    pub obligations: u64,
    /// How many constructors it has. It stays at 2^64 - 1 once it is there.
    pub constructors: u64,
}

/// How large the conjunction of a text's assumptions is, with its clocks rewritten away; nothing where the text assumes
/// nothing. It builds the formula of one assumption at a time.
pub fn assumed_size(alloc: Global, unit: &Unit) -> Result<Option<Size>, NoMemory>
    ensures { IfOk result (λ size. AreSizesOf size (plain_assumed unit.now)) }
{
    let mut size = None;
    for directive in unit.as_slice() {
        size = with_directive(alloc, size, directive)?;
    }
    Ok(size)
}

/// How large what is owed of a directive is, with its clocks rewritten away, where `assumed_size` has told how large
/// what its text assumes is.
pub fn owed_size(
    alloc: Global,
    directive: &Directive,
    assumed: Option<Size>,
) -> Result<Size, NoMemory>
    ensures { IfOk result (λ size. (unit : List Directive) → AreSizesOf assumed (plain_assumed unit)
        → IsSizeOf size (plain_owed unit directive.now)) }
{
    let size = size_of(alloc, &directive.formula)?;
    Ok(size_under(assumed, directive.kind, size))
}

// How large a formula is with its clocks rewritten away.
fn size_of(alloc: Global, formula: &Fl) -> Result<Size, NoMemory>
    ensures { IfOk result (λ size. IsSizeOf size (plain (formula_of formula.now) None)) }
{
    let plain = unclock(alloc, formula, None)?;
    Ok(Size {
        has_large_sequence: has_large_sequence(&plain),
        obligations: obligations(&plain),
        constructors: measure(&plain),
    })
}

// The size of what is assumed with one directive more.
fn with_directive(
    alloc: Global,
    others: Option<Size>,
    directive: &Directive,
) -> Result<Option<Size>, NoMemory>
    ensures { IfOk result (λ size. (formulas : Option Formula) → AreSizesOf others formulas
        → AreSizesOf size (with_directive formulas directive.now)) }
{
    if !is_assumed(directive.kind) {
        return Ok(others);
    }
    let part = size_of(alloc, &directive.formula)?;
    Ok(Some(with_part(others, part)))
}

// The size of a conjunction with one part more.
fn with_part(others: Option<Size>, part: Size) -> Size
    ensures { (formulas : Option Formula) (formula : Formula) → AreSizesOf others formulas → IsSizeOf part formula
        → AreSizesOf (Some result) (joined formulas formula) }
{
    match others {
        None => part,
        Some(others) => conjunction(others, part),
    }
}

// The size of the conjunction of two formulas.
fn conjunction(first: Size, second: Size) -> Size
    ensures { (left right : Formula) → IsSizeOf first left → IsSizeOf second right → IsSizeOf result (And left right) }
{
    Size {
        has_large_sequence: first.has_large_sequence || second.has_large_sequence,
        obligations: first
            .obligations
            .saturating_add(second.obligations)
            .saturating_add(1),
        constructors: first
            .constructors
            .saturating_add(second.constructors)
            .saturating_add(1),
    }
}

// The size of a negation.
fn negation(size: Size) -> Size
    ensures { (formula : Formula) → IsSizeOf size formula → IsSizeOf result (Not formula) }
{
    Size {
        has_large_sequence: size.has_large_sequence,
        obligations: size.obligations.saturating_add(1),
        constructors: size.constructors.saturating_add(1),
    }
}

// The size of the claim of a directive of this kind under what is assumed.
fn size_under(assumed: Option<Size>, kind: Kind, size: Size) -> Size
    ensures { (formulas : Option Formula) (formula : Formula) → AreSizesOf assumed formulas → IsSizeOf size formula
        → IsSizeOf result (under formulas kind formula) }
{
    match assumed {
        None => claimed(kind, size),
        Some(assumed) => negation(conjunction(assumed, broken(kind, size))),
    }
}

// The size of what a directive of this kind claims.
fn claimed(kind: Kind, size: Size) -> Size
    ensures { (formula : Formula) → IsSizeOf size formula → IsSizeOf result (claimed kind formula) }
{
    match kind {
        Kind::Assert | Kind::Assume => size,
        Kind::Cover => negation(size),
    }
}

// The size of what breaks the claim.
fn broken(kind: Kind, size: Size) -> Size
    ensures { (formula : Formula) → IsSizeOf size formula → IsSizeOf result (broken kind formula) }
{
    match kind {
        Kind::Assert | Kind::Assume => negation(size),
        Kind::Cover => size,
    }
}
