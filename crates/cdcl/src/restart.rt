// When to begin again at the lowest level.

/// The fewest lemmas between two restarts.
const FEWEST: u64 = 50;

/// Restarts where the lemmas of late span more levels than lemmas did on the whole. (Predicting learnt clauses quality
/// in modern SAT solvers, 2009.)
#[derive(Clone, Copy, Drop)]
pub(crate) struct Restarts {
    // How many levels a lemma of late spans, in parts of 2 ^ 20.
    recent: u64,
    // How many levels all lemmas span, and how many lemmas there were.
    levels: u64,
    lemmas: u64,
    // The lemmas since the last restart.
    since: u64,
}

impl Restarts {
    pub(crate) fn new() -> Restarts {
        Restarts {
            recent: 0,
            levels: 0,
            lemmas: 0,
            since: 0,
        }
    }

    /// Counts a lemma that spans so many levels: whether it is time to restart.
    pub(crate) fn count(&mut self, levels: u32) -> bool {
        let spread = (levels as u64) << 20;
        self.recent = (self.recent - self.recent / 32).saturating_add(spread / 32);
        self.levels = self.levels.saturating_add(spread);
        self.lemmas = self.lemmas.saturating_add(1);
        self.since = self.since.saturating_add(1);
        let is_due = self.since >= FEWEST && self.recent / 5 * 4 > self.levels / self.lemmas;
        if is_due {
            self.since = 0;
        }
        is_due
    }
}
