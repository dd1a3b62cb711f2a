ghost use Rattle.std.specs.Prelude.{◌≡◌};
ghost use Rattle.psl_tree.specs.Counts.{boolean_size, sequence_size, formula_size, states_of, obligations_of, shown};
ghost use Rattle.psl_tree.specs.Trees.{boolean_of, sequence_of, formula_of};

use crate::{Bool, Fl, Sere};

/// The most constructors that a formula may have, by `measure`.
pub const MOST_CONSTRUCTORS: u64 = 4096;

/// The most states that a sequence of a judged formula may count, by `states`.
pub const MOST_STATES: u64 = 1024;

/// The most obligations that a judged formula may count, by `obligations`.
pub const MOST_OBLIGATIONS: u64 = 2048;

/// How many constructors of formulas, sequences and Booleans a formula has. It stays at 2^64 - 1
/// once it is there.
pub fn measure(formula: &Fl) -> u64
    ensures { result ≡ shown (formula_size (formula_of formula.now)) }
{
    match formula {
        Fl::Now(test) | Fl::NowStrong(test) => measure_bool(test).saturating_add(1),
        Fl::Weak(sequence) | Fl::Strong(sequence) => measure_sere(sequence).saturating_add(1),
        Fl::Not(part) | Fl::Next(part) => measure(part).saturating_add(1),
        Fl::And(left, right) | Fl::Until(left, right) => {
            measure(left)
                .saturating_add(measure(right))
                .saturating_add(1)
        }
        Fl::Suffix(sequence, part) => {
            measure_sere(sequence)
                .saturating_add(measure(part))
                .saturating_add(1)
        }
        Fl::Abort(part, test) | Fl::SyncAbort(part, test) | Fl::Clocked(part, test) => {
            measure(part)
                .saturating_add(measure_bool(test))
                .saturating_add(1)
        }
    }
}

fn measure_sere(sequence: &Sere) -> u64
    ensures { result ≡ shown (sequence_size (sequence_of sequence.now)) }
{
    match sequence {
        Sere::Empty => 1,
        Sere::One(test) => measure_bool(test).saturating_add(1),
        Sere::Concat(left, right)
        | Sere::Fuse(left, right)
        | Sere::Either(left, right)
        | Sere::Both(left, right) => {
            measure_sere(left)
                .saturating_add(measure_sere(right))
                .saturating_add(1)
        }
        Sere::Star(part) => measure_sere(part).saturating_add(1),
        Sere::Clocked(part, clock) => {
            measure_sere(part)
                .saturating_add(measure_bool(clock))
                .saturating_add(1)
        }
    }
}

fn measure_bool(test: &Bool) -> u64
    ensures { result ≡ shown (boolean_size (boolean_of test.now)) }
{
    match test {
        Bool::Const(_) | Bool::Test(_) => 1,
        Bool::Not(part) => measure_bool(part).saturating_add(1),
        Bool::And(left, right) | Bool::Or(left, right) => {
            measure_bool(left)
                .saturating_add(measure_bool(right))
                .saturating_add(1)
        }
    }
}

/// At most how many states the automaton of a sequence has. It stays at 2^64 - 1 once it is there.
pub fn states(sequence: &Sere) -> u64
    ensures { result ≡ shown (states_of (sequence_of sequence.now)) }
{
    match sequence {
        Sere::Empty => 1,
        Sere::One(_) => 2,
        Sere::Concat(left, right) | Sere::Fuse(left, right) | Sere::Either(left, right) => {
            states(left).saturating_add(states(right))
        }
        Sere::Both(left, right) => states(left).saturating_mul(states(right)),
        Sere::Star(part) => states(part).saturating_add(1),
        Sere::Clocked(part, _) => states(part),
    }
}

/// At most how many obligations the alternating automaton of a formula has. It stays at 2^64 - 1
/// once it is there.
pub fn obligations(formula: &Fl) -> u64
    ensures { result ≡ shown (obligations_of (formula_of formula.now)) }
{
    match formula {
        Fl::Now(_) | Fl::NowStrong(_) => 1,
        Fl::Weak(sequence) | Fl::Strong(sequence) => states(sequence).saturating_add(1),
        Fl::Not(part) | Fl::Next(part) | Fl::Clocked(part, _) => {
            obligations(part).saturating_add(1)
        }
        Fl::And(left, right) | Fl::Until(left, right) => {
            obligations(left)
                .saturating_add(obligations(right))
                .saturating_add(1)
        }
        Fl::Suffix(sequence, part) => {
            states(sequence)
                .saturating_add(obligations(part))
                .saturating_add(1)
        }
        Fl::Abort(part, _) | Fl::SyncAbort(part, _) => {
            obligations(part).saturating_mul(2).saturating_add(1)
        }
    }
}
