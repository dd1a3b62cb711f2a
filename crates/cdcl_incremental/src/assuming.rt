// Literals that are assumed to be true.
ghost use Rattle.std.specs.Prelude.{◌≡◌, ℕ, ◌*◌, ◌<◌, ◌≤◌, length, slice_index, IfSome, IfNone};
ghost use Rattle.std.specs.Bool.{OnTrue};
ghost use Rattle.std.specs.List.{All, Contains};

use cdcl_trail::Trail;

/// The place of the first of some literals, from a place on, that is not true.
pub(crate) fn first_open(trail: &Trail, literals: &[u32], from: usize) -> Option<usize>
    requires { All (λ literal. literal < 2 * trail.now.variables) literals.now }
    ensures some { IfSome result (λ place. place < length literals.now) }
    ensures open_ { IfSome result (λ place. Contains trail.now.literals (slice_index literals.now place) → ⊥) }
    ensures none { IfNone result ((place : ℕ) → from ≤ place → place < length literals.now
        → Contains trail.now.literals (slice_index literals.now place)) }
{
    for place in from..literals.len() {
        if !trail.is_true(literals[place]) {
            return Some(place);
        }
    }
    None
}

/// Whether all of some literals are true.
pub(crate) fn are_true(trail: &Trail, literals: &[u32]) -> bool
    requires { All (λ literal. literal < 2 * trail.now.variables) literals.now }
    ensures { OnTrue result ((place : ℕ) → place < length literals.now
        → Contains trail.now.literals (slice_index literals.now place)) }
{
    match first_open(trail, literals, 0) {
        Some(_) => false,
        None => true,
    }
}

/// How many levels are decided by some literals in their order, where those between them follow from the levels below.
pub(crate) fn shared_levels(trail: &Trail, literals: &[u32]) -> usize {
    let limits = trail.limits();
    let mut level = 0;
    for literal in literals {
        if level >= limits.len() {
            break;
        }
        let start = limits[level] as usize;
        match trail.literals().get(start) {
            Some(decision) if *decision == *literal => level += 1,
            _ if is_before(trail, *literal, start) => {}
            _ => break,
        }
    }
    level
}

/// Whether a literal is true at one of the first so many places.
fn is_before(trail: &Trail, literal: u32, end: usize) -> bool {
    match trail.places().get((literal / 2) as usize) {
        Some(place) => (*place as usize) < end
            && trail.literals().get(*place as usize) == Some(&literal),
        None => false,
    }
}
