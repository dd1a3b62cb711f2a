// How many levels a lemma spans.
use cdcl_conflict::level_of;
use cdcl_trail::Trail;
use psl_base::NoMemory;
use std::alloc::Global;

/// Counts the levels of literals.
#[derive(Drop)]
pub(crate) struct Spread {
    // By level: the count in which it was seen last.
    seen: Vec<u32>,
    count: u32,
}

impl Spread {
    pub(crate) fn new(alloc: Global, variables: u32) -> Result<Spread, NoMemory> {
        Ok(Spread {
            seen: vec![in alloc; 0; variables as usize + 1]?,
            count: 0,
        })
    }

    /// How many levels false literals are of.
    pub(crate) fn of(&mut self, trail: &Trail, literals: &[u32]) -> u32 {
        self.count = self.count.saturating_add(1);
        let limits = trail.limits();
        let places = trail.places();
        let mut levels: u32 = 0;
        for literal in literals {
            let variable = (*literal / 2) as usize;
            if variable < places.len() && self.is_new(level_of(places[variable], limits)) {
                levels = levels.saturating_add(1);
            }
        }
        levels
    }

    /// Whether a level was not seen in this count.
    fn is_new(&mut self, level: usize) -> bool {
        let is_new = level < self.seen.len() && self.seen[level] != self.count;
        if is_new {
            self.seen[level] = self.count;
        }
        is_new
    }
}
