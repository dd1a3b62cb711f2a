// Going back to a lower level with a lemma.
ghost use Rattle.std.specs.Prelude.{◌≡◌, ◌++◌, ◌∷◌, [], ◌<◌, List, ℕ, length, Some, OnOk, OnErr};
ghost use Rattle.cdcl_trail.specs.Path.{undone, start_of};
ghost use Rattle.cdcl_propagation.specs.Adding.{KeepsClauses};
ghost use Rattle.cdcl.specs.Turns.{CanAttach, IsLower, IsLevelOf};

use crate::decide::Decider;
use cdcl_conflict::level_of;
use cdcl_propagation::Propagator;
use psl_base::NoMemory;

/// Goes back to the level where a lemma asserts its first literal, adds the lemma, and makes that literal true. At a
/// restart a lemma of several literals is added at the lowest level, where none of them is false, and asserts nothing.
///
/// # Errors
///
/// `NoMemory` if memory is refused. The clauses that there are then stay.
pub fn attach_lemma(
    propagator: &mut Propagator,
    decider: &mut Decider,
    lemma: &[u32],
    restarts: bool,
) -> Result<(), NoMemory>
    requires { CanAttach propagator.old lemma.now }
    ensures clauses { OnOk result (propagator.new.clauses ≡ propagator.old.clauses ++ Some lemma.now ∷ []) }
    ensures variables { propagator.new.path.variables ≡ propagator.old.path.variables }
    ensures err { OnErr result (KeepsClauses propagator.old.clauses propagator.new.clauses) }
{
    match lemma {
        [] => unreachable!(),
        [first] => {
            go_back(propagator, decider, 0);
            propagator.attach_unit(lemma, *first)
        }
        [first, second, ..] if restarts => {
            go_back(propagator, decider, 0);
            propagator.attach(lemma, *first, *second)
        }
        [first, second, ..] => {
            let level = level_below(propagator, *second);
            go_back(propagator, decider, level);
            propagator.learn(lemma, *first, *second)
        }
    }
}

/// The level of a false literal of a lower level than the current one.
fn level_below(propagator: &Propagator, literal: u32) -> usize
    requires { IsLower propagator.now.path literal }
    ensures { IsLevelOf propagator.now.path literal result }
{
    let trail = propagator.trail();
    let place = trail.places()[(literal / 2) as usize];
    level_of(place, trail.limits())
}

/// Takes back all above a level.
pub fn go_back(propagator: &mut Propagator, decider: &mut Decider, level: usize)
    requires { level < length propagator.old.path.limits }
    ensures { propagator.new ≡ record propagator.old {
      path = undone propagator.old.path level;
      head = start_of propagator.old.path level;
    } }
{
    let trail = propagator.trail();
    let start = trail.limits()[level] as usize;
    decider.release(&trail.literals()[start..]);
    propagator.undo_to(level);
}
