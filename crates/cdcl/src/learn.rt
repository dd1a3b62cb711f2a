// Lemmas from conflicts, and the log.
ghost use Rattle.std.specs.Prelude.{◌≡◌, ◌++◌, ◌∷◌, [], ℕ, ◌+◌, ◌*◌, ◌<◌, ◌≤◌, length, map, slice_index_or, OnOk};
ghost use Rattle.std.specs.List.{All};
ghost use Rattle.clauses.specs.declared.flat.TheConstants.{MOST_VARIABLES};
ghost use Rattle.clauses.specs.declared.log.TheConstants.{MOST_LOG_WORDS};
ghost use Rattle.clauses.specs.Logs.LogEntry.{Lemma as LemmaEntry};
ghost use Rattle.clauses.specs.Logs.{log_words};
ghost use Rattle.cdcl_trail.specs.Literals.{signed as signed_of};
ghost use Rattle.cdcl_propagation.specs.State.{IsConflict};
ghost use Rattle.cdcl_conflict_theory.specs.Lemmas.{IsLearned, IsRefuted};
ghost use Rattle.cdcl.specs.Turns.{steps_at};

use cdcl_conflict::{Analyzer, Lemma, TrailView};
use cdcl_propagation::Propagator;
use cdcl_trail::signed;
use clauses::{Entry, Log};
use psl_base::NoMemory;

/// The place where a level begins, or the end of the trail where there is no such level.
fn begin_of(limits: &[u32], level: usize, end: usize) -> usize
    ensures { result ≡ slice_index_or limits.now level end }
{
    if level < limits.len() {
        limits[level] as usize
    } else {
        end
    }
}

/// Learns from a conflict. Where there is a level but the lowest, that is a lemma that asserts a literal; at the lowest
/// it is the empty lemma.
///
/// # Errors
///
/// `NoMemory` if memory is refused.
pub fn analyze(
    propagator: &Propagator,
    analyzer: &mut Analyzer,
    conflict: u32,
    lemma: &mut Lemma,
) -> Result<(), NoMemory>
    requires conflict { IsConflict propagator.now.clauses propagator.now.path conflict }
    requires room { analyzer.old ≡ propagator.now.path.variables }
    ensures learned { OnOk result (0 < length propagator.now.path.limits
        → IsLearned propagator.now.clauses (steps_at propagator.now.path)
        lemma.new.literals.items lemma.new.hints.items) }
    ensures refuted { OnOk result (propagator.now.path.limits ≡ []
        → IsRefuted propagator.now.clauses lemma.new.literals.items lemma.new.hints.items) }
    ensures room { analyzer.new ≡ analyzer.old }
{
    let trail = propagator.trail();
    let literals = trail.literals();
    let limits = trail.limits();
    let view = TrailView {
        literals,
        reasons: trail.reasons(),
        places: trail.places(),
        fixed: begin_of(limits, 0, literals.len()),
        start: begin_of(limits, limits.len().saturating_sub(1), literals.len()),
    };
    analyzer.analyze(conflict, &view, propagator.clauses(), lemma)
}

/// Writes a lemma into the log, with signed literals.
pub(crate) fn log_lemma(
    log: &mut Log,
    signed_literals: &mut Vec<i32>,
    lemma: &Lemma,
) -> Result<(), NoMemory>
    requires literals { All (λ literal. literal < 2 * MOST_VARIABLES) lemma.now.literals.items }
    requires hints { All (λ hint. (0 < hint) × (hint ≤ MOST_VARIABLES)) lemma.now.hints.items }
    requires few { log_words log.old
        + (length lemma.now.literals.items + length lemma.now.hints.items + 2) ≤ MOST_LOG_WORDS }
    ensures { OnOk result
        (log.new ≡ log.old ++ LemmaEntry (map signed_of lemma.now.literals.items) lemma.now.hints.items ∷ []) }
{
    signed_literals.clear();
    add_signed(signed_literals, &lemma.literals)?;
    log.push(Entry::Lemma {
        literals: signed_literals,
        hints: &lemma.hints,
    })
}

/// Adds literals as signed numbers.
fn add_signed(all: &mut Vec<i32>, literals: &[u32]) -> Result<(), NoMemory>
    requires { All (λ literal. literal < 2 * MOST_VARIABLES) literals.now }
    ensures { OnOk result (all.new.items ≡ all.old.items ++ map signed_of literals.now) }
{
    for literal in literals {
        all.push(signed(*literal))?;
    }
    Ok(())
}
