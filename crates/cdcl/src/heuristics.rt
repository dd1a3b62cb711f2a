// What the solver goes by where more than one way is right. No proof rests on it.
use crate::decide::Decider;
use crate::restart::Restarts;
use crate::spread::Spread;
use crate::usage::{Candidate, Usage};
use cdcl_conflict::Lemma;
use cdcl_propagation::Propagator;
use cdcl_trail::{Trail, number_of};
use clauses::MOST_VARIABLES;
use psl_base::NoMemory;
use std::alloc::Global;

/// How many lemmas there are when the first are dropped.
const FIRST_DROP: usize = 32;

/// A lemma that was a hint in the last one of so many parts of the search is of use still, however many levels it
/// spans.
const GRACE: usize = 8;

/// How many lemmas come between two times at which lemmas of a growing formula are dropped.
const NEXT_DROP: usize = 300;

/// The choices of a solver: what to decide, when to restart, which lemmas to drop.
#[derive(Drop)]
pub struct Heuristics {
    /// What to decide.
    pub decider: Decider,
    restarts: Restarts,
    usage: Usage,
    spread: Spread,
    // How many lemmas there are when some are dropped next.
    next_drop: usize,
}

impl Heuristics {
    /// The choices of a search over so many variables.
    ///
    /// # Errors
    ///
    /// `NoMemory` if memory is refused.
    pub fn new(alloc: Global, variables: u32) -> Result<Heuristics, NoMemory> {
        Ok(Heuristics {
            decider: Decider::new(alloc, variables)?,
            restarts: Restarts::new(),
            usage: Usage::new(alloc),
            spread: Spread::new(alloc, variables)?,
            next_drop: FIRST_DROP,
        })
    }

    /// The same, where some literals are decided before all others. Those of other variables are left out.
    pub(crate) fn with_first(
        alloc: Global,
        variables: u32,
        first: &[i32],
    ) -> Result<Heuristics, NoMemory> {
        let mut heuristics = Heuristics::new(alloc, variables)?;
        let mut numbers = Vec::new(alloc);
        for literal in first {
            if *literal != 0 && literal.unsigned_abs() <= variables.min(MOST_VARIABLES) {
                numbers.push(number_of(*literal))?;
            }
        }
        heuristics.decider.decide_first(numbers);
        Ok(heuristics)
    }

    /// Counts a lemma, which an analysis found that reached some places of the trail: whether it is time to restart.
    pub(crate) fn count(
        &mut self,
        trail: &Trail,
        reached: &[u32],
        lemma: &Lemma,
        clauses: usize,
    ) -> Result<bool, NoMemory> {
        self.decider.bump(trail, reached);
        let levels = self.spread.of(trail, &lemma.literals);
        self.usage.add(levels, &lemma.hints, clauses)?;
        Ok(self.restarts.count(levels))
    }

    /// Counts a lemma of a growing formula, where so many clauses and lemmas are numbered before it.
    ///
    /// # Errors
    ///
    /// `NoMemory` if memory is refused.
    pub fn count_at(
        &mut self,
        trail: &Trail,
        reached: &[u32],
        lemma: &Lemma,
        clauses: usize,
    ) -> Result<(), NoMemory> {
        self.usage.pass(clauses)?;
        self.count(trail, reached, lemma, 0)?;
        Ok(())
    }

    /// The less useful half of the lemmas of a growing formula that might be dropped, where there are so many lemmas.
    /// None while it is too early.
    ///
    /// # Errors
    ///
    /// `NoMemory` if memory is refused.
    pub fn least_useful(
        &mut self,
        alloc: Global,
        propagator: &Propagator,
        lemmas: usize,
    ) -> Result<Vec<Candidate>, NoMemory> {
        if lemmas < self.next_drop {
            return Ok(Vec::new(alloc));
        }
        self.next_drop = lemmas.saturating_add(NEXT_DROP);
        let mut candidates = self.usage.candidates(alloc, propagator, 0, None)?;
        candidates.truncate(candidates.len() / 2);
        Ok(candidates)
    }

    /// The lemmas that might be dropped, the least useful first, where there are so many lemmas and clauses of the
    /// formula. None while it is too early.
    pub(crate) fn candidates(
        &mut self,
        alloc: Global,
        propagator: &Propagator,
        lemmas: usize,
        clauses: usize,
    ) -> Result<Vec<Candidate>, NoMemory> {
        if lemmas < self.next_drop {
            return Ok(Vec::new(alloc));
        }
        self.next_drop = lemmas.saturating_add(FIRST_DROP + lemmas / 8);
        let grace = u32::try_from(lemmas / GRACE).unwrap_or(u32::MAX);
        self.usage
            .candidates(alloc, propagator, clauses, Some(grace))
    }
}
