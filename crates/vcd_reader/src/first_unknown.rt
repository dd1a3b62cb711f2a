ghost use Rattle.std.specs.Prelude.{◌≡◌, ◌≤◌, length};
ghost use Rattle.psl_tree.specs.Directives.{AreOver};
ghost use Rattle.psl_tree.specs.Atoms.{AtomsOfBoolean, AtomsOfSequence, AtomsOfFormula};
ghost use Rattle.psl_tree.specs.Trees.{boolean_of, sequence_of, formula_of};
ghost use Rattle.vcd_reader.specs.FirstUnknown.{IsFirstUnknown, is_unknown_for, first_below, earliest};
ghost use Rattle.vcd_reader.specs.Sampled.{AtomInRange};
ghost use Rattle.vcd_reader.specs.Tested.{atoms_in_boolean, atoms_in_sequence, atoms_in};

use crate::Recording;
use psl_tree::{Atom, Bool, Fl, Sere, Unit};

impl Recording {
    /// The first sample, counted from 0, at which a bit is unknown that the formula of some directive tests, as a value or as
    /// an edge; none where there is no such sample. Bits that no formula tests do not matter.
    pub fn first_unknown(&self, unit: &Unit) -> Option<u32>
        requires { AreOver self.now.names unit.now }
        ensures { IsFirstUnknown self.now unit.now result }
    {
        let samples = self.samples();
        let mut first = samples;
        for directive in unit.as_slice() {
            first = of_formula(self, &directive.formula, first);
        }
        if first < samples { Some(first) } else { None }
    }
}

/// The first sample below a bound at which a bit of a formula is unknown, or the bound.
#[tactic(auto, using(crate::proofs::FirstUnknown::earliest_append))]
fn of_formula(recording: &Recording, formula: &Fl, until: u32) -> u32
    requires until { until ≤ length recording.now.samples }
    requires in_range { AtomsOfFormula (AtomInRange recording.now.names) (formula_of formula.now) }
    ensures within { result ≤ until }
    ensures is { result ≡ earliest recording.now (atoms_in (formula_of formula.now)) until }
{
    match formula {
        Fl::Now(test) | Fl::NowStrong(test) => of_boolean(recording, test, until),
        Fl::Weak(sequence) | Fl::Strong(sequence) => of_sequence(recording, sequence, until),
        Fl::Not(part) | Fl::Next(part) => of_formula(recording, part, until),
        Fl::And(left, right) | Fl::Until(left, right) => {
            let first = of_formula(recording, left, until);
            of_formula(recording, right, first)
        }
        Fl::Suffix(sequence, part) => {
            let first = of_sequence(recording, sequence, until);
            of_formula(recording, part, first)
        }
        Fl::Abort(part, test) | Fl::SyncAbort(part, test) | Fl::Clocked(part, test) => {
            let first = of_formula(recording, part, until);
            of_boolean(recording, test, first)
        }
    }
}

/// The same of a sequence.
#[tactic(auto, using(crate::proofs::FirstUnknown::earliest_append))]
fn of_sequence(recording: &Recording, sequence: &Sere, until: u32) -> u32
    requires until { until ≤ length recording.now.samples }
    requires in_range { AtomsOfSequence (AtomInRange recording.now.names) (sequence_of sequence.now) }
    ensures within { result ≤ until }
    ensures is { result ≡ earliest recording.now (atoms_in_sequence (sequence_of sequence.now)) until }
{
    match sequence {
        Sere::Empty => until,
        Sere::One(test) => of_boolean(recording, test, until),
        Sere::Concat(left, right)
        | Sere::Fuse(left, right)
        | Sere::Either(left, right)
        | Sere::Both(left, right) => {
            let first = of_sequence(recording, left, until);
            of_sequence(recording, right, first)
        }
        Sere::Star(part) => of_sequence(recording, part, until),
        Sere::Clocked(part, clock) => {
            let first = of_sequence(recording, part, until);
            of_boolean(recording, clock, first)
        }
    }
}

/// The same of a Boolean.
#[tactic(auto, using(crate::proofs::FirstUnknown::earliest_append))]
fn of_boolean(recording: &Recording, test: &Bool, until: u32) -> u32
    requires until { until ≤ length recording.now.samples }
    requires in_range { AtomsOfBoolean (AtomInRange recording.now.names) (boolean_of test.now) }
    ensures within { result ≤ until }
    ensures is { result ≡ earliest recording.now (atoms_in_boolean (boolean_of test.now)) until }
{
    match test {
        Bool::Const(_) => until,
        Bool::Test(atom) => of_atom(recording, atom, until),
        Bool::Not(part) => of_boolean(recording, part, until),
        Bool::And(left, right) | Bool::Or(left, right) => {
            let first = of_boolean(recording, left, until);
            of_boolean(recording, right, first)
        }
    }
}

/// The same of an atom.
fn of_atom(recording: &Recording, atom: &Atom, until: u32) -> u32
    requires until { until ≤ length recording.now.samples }
    requires in_range { AtomInRange recording.now.names atom.now }
    ensures within { result ≤ until }
    ensures is { result ≡ first_below (λ sample. is_unknown_for recording.now sample atom.now) until }
{
    let mut hint = 0;
    for sample in 0..until {
        if recording.is_unknown_near(sample, atom.signal, atom.bit, &mut hint) {
            return sample;
        }
    }
    until
}
