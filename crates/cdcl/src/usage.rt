// Which lemmas are of use.
use cdcl_propagation::Propagator;
use psl_base::NoMemory;
use std::alloc::Global;

/// What is known of a lemma.
#[derive(Clone, Copy, Drop)]
struct Use {
    // How many levels it spanned when it was learned.
    levels: u32,
    // The count of lemmas when it was last a hint.
    last: u32,
}

/// A lemma that may be dropped. The least useful comes first.
#[derive(Clone, Copy, PartialEq, Eq, PartialOrd, Ord, Drop)]
pub struct Candidate {
    // The smaller, the longer ago it was of use.
    recency: u32,
    // The smaller, the more levels it spans.
    closeness: u32,
    last: u32,
    /// Its number among the clauses.
    pub number: u32,
}

/// The use of each lemma.
#[derive(Drop)]
pub(crate) struct Usage {
    uses: Vec<Use>,
    // How many lemmas there are.
    count: u32,
}

impl Usage {
    pub(crate) fn new(alloc: Global) -> Usage {
        Usage {
            uses: Vec::new(alloc),
            count: 0,
        }
    }

    /// Counts a lemma that spans so many levels, and marks those that its hints name, where the formula has so many
    /// clauses.
    pub(crate) fn add(
        &mut self,
        levels: u32,
        hints: &[u32],
        clauses: usize,
    ) -> Result<(), NoMemory> {
        self.count = self.count.saturating_add(1);
        self.uses.push(Use {
            levels,
            last: self.count,
        })?;
        for hint in hints {
            let index = (*hint as usize).saturating_sub(clauses).saturating_sub(1);
            if *hint as usize > clauses && index < self.uses.len() {
                self.uses[index].last = self.count;
            }
        }
        Ok(())
    }

    /// Passes over numbers of clauses that are no lemmas, up to so many.
    pub(crate) fn pass(&mut self, count: usize) -> Result<(), NoMemory> {
        for _ in self.uses.len()..count {
            self.uses.push(Use { levels: 0, last: 0 })?;
        }
        Ok(())
    }

    /// The lemmas that might be dropped, the least useful first: of those that were no hint in so many lemmas those
    /// that span the most levels, and then the others in the same order. With no such number those that were a hint
    /// the longest ago.
    pub(crate) fn candidates(
        &self,
        alloc: Global,
        propagator: &Propagator,
        clauses: usize,
        grace: Option<u32>,
    ) -> Result<Vec<Candidate>, NoMemory> {
        let mut candidates = Vec::new(alloc);
        let mut number = u32::try_from(clauses).unwrap_or(u32::MAX);
        for lemma in &self.uses {
            number = number.saturating_add(1);
            if lemma.levels > 2 && is_long(propagator, number) {
                candidates.push(Candidate {
                    recency: self.recency(lemma.last, grace),
                    closeness: u32::MAX - lemma.levels,
                    last: lemma.last,
                    number,
                })?;
            }
        }
        candidates.sort_unstable();
        Ok(candidates)
    }

    /// For a lemma that was a hint last at this count: 1 where fewer than so many lemmas came since, and 0 where more
    /// did; where no number is given, the count.
    fn recency(&self, last: u32, grace: Option<u32>) -> u32 {
        match grace {
            Some(lemmas) => (last.saturating_add(lemmas) > self.count) as u32,
            None => last,
        }
    }
}

/// Whether a number names a live clause of more than two literals.
fn is_long(propagator: &Propagator, number: u32) -> bool {
    match propagator.clause(number) {
        Some(clause) => clause.len() > 2,
        None => false,
    }
}
