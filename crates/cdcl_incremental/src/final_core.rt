// Why an assumed literal is false: the assumed literals that it follows from. (The analysis of a final conflict, in An
// extensible SAT-solver, 2003.)
ghost use Rattle.std.specs.Prelude.{◌≡◌, ◌⊎◌, ℕ, ◌+◌, ◌*◌, ◌<◌, ◌≤◌, length, slice_index, slice_index_or, map, false, true, IfOk, OnOk, IfSome, Some};
ghost use Rattle.std.specs.Bool.{OnTrue};
ghost use Rattle.std.specs.List.{All, Contains};
ghost use Rattle.clauses.specs.declared.flat.TheConstants.{MOST_VARIABLES};
ghost use Rattle.clauses.specs.Live.{clause_of};
ghost use Rattle.cdcl_trail.specs.Literals.{opposite as opposite_of, signed as signed_of};
ghost use Rattle.cdcl_incremental.specs.Cores.{IsFlag, IsExplained, Implies, IsCoreOf, IsTaken, IsTraced};

use crate::asked::Literals;
use cdcl_propagation::Propagator;
use cdcl_trail::{Trail, opposite, signed};
use psl_base::{Items, NoMemory};
use std::alloc::Global;

/// The assumed literals that make another assumed one false, and that one itself. None where the trail has decisions that
/// were not assumed.
pub(crate) fn final_core(
    alloc: Global,
    propagator: &Propagator,
    assumed: &[u32],
    failed: u32,
) -> Result<Option<Literals>, NoMemory>
    requires few { propagator.now.path.variables ≤ MOST_VARIABLES }
    requires within { All (λ literal. literal < 2 * propagator.now.path.variables) assumed.now }
    requires among { Contains assumed.now failed }
    requires failed { Contains propagator.now.path.literals (opposite_of failed) }
    ensures { IfOk result (λ core. IfSome core (IsCoreOf propagator.now.clauses assumed.now)) }
{
    let mut flags = flag(alloc, propagator.trail(), opposite(failed))?;
    let mut core = Vec::new(alloc);
    core.push(signed(failed))?;
    if trace(propagator, assumed, &mut flags, &mut core)? {
        Ok(Some(Items::from_vec(core)))
    } else {
        Ok(None)
    }
}

/// A flag at the place of a true literal, and at no other.
fn flag(alloc: Global, trail: &Trail, literal: u32) -> Result<Vec<bool>, NoMemory>
    ensures size { IfOk result (λ flags. length flags.items ≡ length trail.now.literals) }
    ensures flag { IfOk result (λ flags. (at : ℕ) → at < length trail.now.literals
        → slice_index trail.now.literals at ≡ literal → IsFlag flags.items at) }
{
    let mut flags = Vec::new(alloc);
    for other in trail.literals() {
        flags.push(*other == literal)?;
    }
    Ok(flags)
}

/// Adds the assumed literals that make flagged ones true to a core: whether that are all decisions that do.
fn trace(
    propagator: &Propagator,
    assumed: &[u32],
    flags: &mut [bool],
    core: &mut Vec<i32>,
) -> Result<bool, NoMemory>
    requires few { propagator.now.path.variables ≤ MOST_VARIABLES }
    requires within { All (λ literal. literal < 2 * propagator.now.path.variables) assumed.now }
    requires size { length flags.old ≡ length propagator.now.path.literals }
    ensures { IfOk result (λ clear. OnTrue clear
        (IsTraced propagator.now assumed.now flags.old core.old.items core.new.items)) }
{
    explain_all(propagator, flags);
    take_assumed(propagator.trail(), assumed, flags, core)?;
    Ok(is_clear(flags))
}

/// Replaces flags of places that have reasons by flags of the places which these name, from the end of the trail down.
fn explain_all(propagator: &Propagator, flags: &mut [bool])
    requires { length flags.old ≡ length propagator.now.path.literals }
    ensures { Implies propagator.now flags.old flags.new }
{
    for place in (0..flags.len()).rev() {
        if flags[place] {
            explain(propagator, flags, place);
        }
    }
}

/// Replaces the flag of a place by flags of the places that its reason names, where it has a reason.
fn explain(propagator: &Propagator, flags: &mut [bool], place: usize)
    requires within { place < length flags.old }
    requires size { length flags.old ≡ length propagator.now.path.literals }
    ensures { Implies propagator.now flags.old flags.new }
{
    let trail = propagator.trail();
    let Some(clause) = propagator.clause(trail.reasons()[place]) else {
        return;
    };
    if flag_others(trail, clause, place, flags) {
        flags[place] = false;
    }
}

/// Flags the places at which the other literals of a reason are false, as far as they are lower ones: whether all are.
fn flag_others(trail: &Trail, clause: &[u32], place: usize, flags: &mut [bool]) -> bool
    requires within { place < length flags.old }
    requires size { length flags.old ≡ length trail.now.literals }
    ensures more { (at : ℕ) → IsFlag flags.old at → IsFlag flags.new at }
    ensures all { OnTrue result (IsExplained trail.now flags.new place clause.now) }
{
    let literals = trail.literals();
    let places = trail.places();
    for other in clause {
        if *other == literals[place] {
            continue;
        }
        let variable = (*other / 2) as usize;
        if variable >= places.len() {
            return false;
        }
        let at = places[variable] as usize;
        if at >= place || literals[at] != opposite(*other) {
            return false;
        }
        flags[at] = true;
    }
    true
}

/// Takes the flags of assumed literals away, and adds these literals to a core.
fn take_assumed(
    trail: &Trail,
    assumed: &[u32],
    flags: &mut [bool],
    core: &mut Vec<i32>,
) -> Result<(), NoMemory>
    requires few { trail.now.variables ≤ MOST_VARIABLES }
    requires within { All (λ literal. literal < 2 * trail.now.variables) assumed.now }
    requires size { length flags.old ≡ length trail.now.literals }
    ensures { OnOk result (IsTaken trail.now assumed.now flags.old core.old.items flags.new core.new.items) }
{
    for literal in assumed {
        if take_flag(trail, *literal, flags) {
            core.push(signed(*literal))?;
        }
    }
    Ok(())
}

/// Takes the flag of a literal away, where it is true and its place has one: whether that is so.
fn take_flag(trail: &Trail, literal: u32, flags: &mut [bool]) -> bool
    requires { length flags.old ≡ length trail.now.literals }
    ensures { (at : ℕ) → IsFlag flags.old at
        → IsFlag flags.new at ⊎ ((result ≡ true) × (slice_index trail.now.literals at ≡ literal)) }
{
    let variable = (literal / 2) as usize;
    let places = trail.places();
    if variable >= places.len() {
        return false;
    }
    let place = places[variable] as usize;
    if place >= flags.len() || !flags[place] || trail.literals()[place] != literal {
        return false;
    }
    flags[place] = false;
    true
}

/// Whether no place has a flag.
fn is_clear(flags: &[bool]) -> bool
    ensures { OnTrue result ((at : ℕ) → IsFlag flags.now at → ⊥) }
{
    for flag in flags {
        if *flag {
            return false;
        }
    }
    true
}
