// What the search found is written down, and wiped out.
ghost use Rattle.std.specs.Prelude.{◌≡◌, ◌≢◌, ℕ, ◌++◌, ◌<◌, ◌≤◌, length, reverse, IfOk, OnOk};
ghost use Rattle.std.specs.List.{All, Contains};
ghost use Rattle.cdcl_conflict.specs.declared.standing.Standing.TheVariants.{Untouched};
ghost use Rattle.cdcl_conflict_theory.specs.Trails.{size_of, IsTrail};
ghost use Rattle.cdcl_conflict.specs.Views.{steps_of};
ghost use Rattle.cdcl_conflict.specs.Standings.{standing_at, hints_at, literals_at, IsListed, IsCollected};

use crate::TrailView;
use crate::standing::Standing;
use cdcl_trail::opposite;
use psl_base::NoMemory;

/// A lemma, and the numbers of the clauses that it follows from, in the order of propagation.
#[derive(Debug, Drop)]
pub struct Lemma {
    pub literals: Vec<u32>,
    pub hints: Vec<u32>,
}

/// Writes down the lemma that the search for a conflict found, and wipes out what is known of the places.
pub fn collect(
    conflict: u32,
    trail: &TrailView<'_>,
    standings: &mut [Standing],
    reached: &mut [u32],
    lemma: &mut Lemma,
) -> Result<(), NoMemory>
    requires reasons { length trail.now.reasons.now ≡ size_of (steps_of trail.now) }
    requires room { size_of (steps_of trail.now) ≤ length standings.old }
    requires listed { IsListed (size_of (steps_of trail.now)) standings.old reached.old }
    ensures collected { OnOk result
        (IsCollected (steps_of trail.now) conflict standings.old reached.old lemma.new.literals.items lemma.new.hints.items) }
    ensures wiped { OnOk result ((place : ℕ) → standing_at standings.new place ≡ Untouched) }
{
    // The places rise in the order of propagation.
    reached.sort_unstable();
    lemma.hints.clear();
    add_hints(&mut lemma.hints, reached, standings, trail.reasons)?;
    lemma.hints.push(conflict)?;
    lemma.literals.clear();
    add_literals(&mut lemma.literals, reached, standings, trail.literals)?;
    wipe(standings, reached);
    Ok(())
}

/// Adds the numbers of the reasons of the places that are explained, in the order of the places.
fn add_hints(
    hints: &mut Vec<u32>,
    places: &[u32],
    standings: &[Standing],
    reasons: &[u32],
) -> Result<(), NoMemory>
    requires room { All (λ place. place < length standings.now) places.now }
    requires within { All (λ place. place < length reasons.now) places.now }
    ensures { OnOk result (hints.new.items ≡ hints.old.items ++ hints_at standings.now reasons.now places.now) }
{
    for place in places {
        if let Standing::Explained = standings[*place as usize] {
            hints.push(reasons[*place as usize])?;
        }
    }
    Ok(())
}

/// Adds the negations of the literals at the places that are kept, from the last place to the first.
fn add_literals(
    lemma: &mut Vec<u32>,
    places: &[u32],
    standings: &[Standing],
    literals: &[u32],
) -> Result<(), NoMemory>
    requires room { All (λ place. place < length standings.now) places.now }
    requires within { All (λ place. place < length literals.now) places.now }
    ensures { OnOk result (lemma.new.items ≡ lemma.old.items ++ literals_at standings.now literals.now (reverse places.now)) }
{
    for place in places.iter().rev() {
        if let Standing::Kept = standings[*place as usize] {
            lemma.push(opposite(literals[*place as usize]))?;
        }
    }
    Ok(())
}

/// Nothing is known any more of the places.
fn wipe(standings: &mut [Standing], places: &[u32])
    requires room { All (λ place. place < length standings.old) places.now }
    requires listed { (place : ℕ) → standing_at standings.old place ≢ Untouched → Contains places.now place }
    ensures { (place : ℕ) → standing_at standings.new place ≡ Untouched }
{
    for place in places {
        standings[*place as usize] = Standing::Untouched;
    }
}
