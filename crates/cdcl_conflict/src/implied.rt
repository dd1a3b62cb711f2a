// Literals that a lemma can do without. (Minimizing learned clauses, 2009.)
ghost use Rattle.std.specs.Prelude.{◌≡◌, ◌≢◌, ◌<◌, ◌≤◌, length, IsTrue};
ghost use Rattle.std.specs.List.{All};
ghost use Rattle.cdcl_conflict_theory.specs.Trails.{size_of, reason_at, IsTrail, KnowsPlaces};
ghost use Rattle.cdcl_conflict.specs.Views.{steps_of};
ghost use Rattle.cdcl_conflict.specs.Standings.{IsReadable};

use crate::TrailView;
use crate::explain::clause_at;
use crate::standing::Standing;
use clause_store::Store;
use psl_base::NoMemory;
use std::alloc::Global;

/// How far the search for reasons goes down.
const DEPTH: u32 = 100;

/// What is known of a place beside its standing.
#[derive(Clone, Copy, PartialEq, Eq, Drop)]
enum Verdict {
    Unknown,
    /// Its literal follows from literals that were reached and from level 0.
    Implied,
    /// No such thing was found.
    Needed,
}

/// What was found out about places since the last conflict. No proof rests on it.
#[derive(Drop)]
pub struct Memory {
    // By place.
    verdicts: Vec<Verdict>,
    // The places of which something is known.
    known: Vec<u32>,
}

impl Memory {
    pub fn new(alloc: Global, places: usize) -> Result<Memory, NoMemory> {
        Ok(Memory {
            verdicts: vec![in alloc; Verdict::Unknown; places]?,
            known: Vec::new(alloc),
        })
    }

    /// Forgets all that is known.
    pub fn clear(&mut self) {
        for place in &self.known {
            if (*place as usize) < self.verdicts.len() {
                self.verdicts[*place as usize] = Verdict::Unknown;
            }
        }
        self.known.clear();
    }

    fn verdict(&self, place: u32) -> Verdict {
        if (place as usize) < self.verdicts.len() {
            self.verdicts[place as usize]
        } else {
            Verdict::Unknown
        }
    }

    fn note(&mut self, place: u32, is_implied: bool) {
        if (place as usize) < self.verdicts.len() && self.known.push(place).is_ok() {
            self.verdicts[place as usize] = if is_implied {
                Verdict::Implied
            } else {
                Verdict::Needed
            };
        }
    }
}

/// Whether the literal at a place follows from literals that were reached and from level 0.
pub fn is_implied(
    place: usize,
    trail: &TrailView<'_>,
    clauses: &Store,
    standings: &[Standing],
    memory: &mut Memory,
) -> bool
    requires trail { IsTrail clauses.now (steps_of trail.now) }
    requires places { KnowsPlaces (steps_of trail.now) trail.now.places.now }
    requires place { place < size_of (steps_of trail.now) }
    requires room { size_of (steps_of trail.now) ≤ length standings.now }
    ensures { IsTrue result → reason_at (steps_of trail.now) place ≢ 0 }
{
    follows(place, DEPTH, trail, clauses, standings, memory)
}

/// The same, in so many steps down.
fn follows(
    place: usize,
    depth: u32,
    trail: &TrailView<'_>,
    clauses: &Store,
    standings: &[Standing],
    memory: &mut Memory,
) -> bool
    requires trail { IsTrail clauses.now (steps_of trail.now) }
    requires places { KnowsPlaces (steps_of trail.now) trail.now.places.now }
    requires place { place < size_of (steps_of trail.now) }
    requires room { size_of (steps_of trail.now) ≤ length standings.now }
    ensures { IsTrue result → reason_at (steps_of trail.now) place ≢ 0 }
{
    let reason = trail.reasons[place];
    if reason == 0 || depth == 0 {
        return false;
    }
    for literal in clause_at(clauses, reason) {
        let other = trail.places[(*literal / 2) as usize];
        if other as usize == place || is_known(other as usize, trail, standings) {
            continue;
        }
        let is_implied = match memory.verdict(other) {
            Verdict::Implied => true,
            Verdict::Needed => false,
            Verdict::Unknown => {
                let below = follows(other as usize, depth - 1, trail, clauses, standings, memory);
                memory.note(other, below);
                below
            }
        };
        if !is_implied {
            return false;
        }
    }
    true
}

/// Whether a place was reached, or is of level 0.
fn is_known(place: usize, trail: &TrailView<'_>, standings: &[Standing]) -> bool
    requires { place < length standings.now }
{
    place < trail.fixed || !matches!(standings[place], Standing::Untouched)
}
