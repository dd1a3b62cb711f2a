ghost use Rattle.std.specs.Prelude.{◌≡◌, ◌<◌, ◌^◌, [], ◌∷◌, length, All, IfOk, OnOk};
ghost use Rattle.psl_tree.specs.Holds.{holds};
ghost use Rattle.psl_tree.specs.Trees.{Test, boolean_of, sequence_of, formula_of};
ghost use Rattle.alternating_theory.specs.Atoms.{is_among};
ghost use Rattle.vcd_reader.specs.Sampled.{AtomInRange, letter_at};
ghost use Rattle.wave_judge.specs.Letter.{TellsLetter};
ghost use Rattle.wave_judge.specs.Atoms.{atoms_in_boolean, atoms_in_sequence, atoms_in, with_new, AreTested};

use alternating::Truths;
use psl_base::{Items, NoMemory};
use psl_tree::{Atom, Atoms, Bool, Fl, Sere, same_atom};
use std::alloc::Global;
use vcd_reader::Recording;

/// The atoms that a formula tests, each once.
pub(crate) fn tested_atoms(alloc: Global, formula: &Fl) -> Result<Atoms, NoMemory>
    ensures { IfOk result (λ atoms. AreTested (formula_of formula.now) atoms) }
{
    let mut atoms = Items::new(alloc);
    add_of_formula(&mut atoms, formula)?;
    Ok(atoms)
}

// Adds the atoms of a formula that are not there yet.
#[tactic(auto, using(crate::proofs::Tested::with_new_append))]
fn add_of_formula(atoms: &mut Atoms, formula: &Fl) -> Result<(), NoMemory>
    ensures { OnOk result (atoms.new ≡ with_new atoms.old (atoms_in (formula_of formula.now))) }
{
    match formula {
        Fl::Now(test) | Fl::NowStrong(test) => add_of_boolean(atoms, test),
        Fl::Weak(sequence) | Fl::Strong(sequence) => add_of_sequence(atoms, sequence),
        Fl::Not(part) | Fl::Next(part) => add_of_formula(atoms, part),
        Fl::And(left, right) | Fl::Until(left, right) => {
            add_of_formula(atoms, left)?;
            add_of_formula(atoms, right)
        }
        Fl::Suffix(sequence, part) => {
            add_of_sequence(atoms, sequence)?;
            add_of_formula(atoms, part)
        }
        Fl::Abort(part, test) | Fl::SyncAbort(part, test) | Fl::Clocked(part, test) => {
            add_of_formula(atoms, part)?;
            add_of_boolean(atoms, test)
        }
    }
}

#[tactic(auto, using(crate::proofs::Tested::with_new_append))]
fn add_of_sequence(atoms: &mut Atoms, sequence: &Sere) -> Result<(), NoMemory>
    ensures { OnOk result (atoms.new ≡ with_new atoms.old (atoms_in_sequence (sequence_of sequence.now))) }
{
    match sequence {
        Sere::Empty => Ok(()),
        Sere::One(test) => add_of_boolean(atoms, test),
        Sere::Concat(left, right)
        | Sere::Fuse(left, right)
        | Sere::Either(left, right)
        | Sere::Both(left, right) => {
            add_of_sequence(atoms, left)?;
            add_of_sequence(atoms, right)
        }
        Sere::Star(part) => add_of_sequence(atoms, part),
        Sere::Clocked(part, clock) => {
            add_of_sequence(atoms, part)?;
            add_of_boolean(atoms, clock)
        }
    }
}

#[tactic(auto, using(crate::proofs::Tested::with_new_append))]
fn add_of_boolean(atoms: &mut Atoms, test: &Bool) -> Result<(), NoMemory>
    ensures { OnOk result (atoms.new ≡ with_new atoms.old (atoms_in_boolean (boolean_of test.now))) }
{
    match test {
        Bool::Const(_) => Ok(()),
        Bool::Test(atom) => add(atoms, atom),
        Bool::Not(part) => add_of_boolean(atoms, part),
        Bool::And(left, right) | Bool::Or(left, right) => {
            add_of_boolean(atoms, left)?;
            add_of_boolean(atoms, right)
        }
    }
}

fn add(atoms: &mut Atoms, atom: &Atom) -> Result<(), NoMemory>
    ensures { OnOk result (atoms.new ≡ with_new atoms.old (atom.now ∷ [])) }
{
    if !contains(atoms.as_slice(), atom) {
        atoms.push(*atom)?;
    }
    Ok(())
}

fn contains(atoms: &[Atom], atom: &Atom) -> bool
    ensures { result ≡ is_among atoms.now atom.now }
{
    atoms.iter().any(|other| same_atom(atom, other))
}

/// Writes of each atom whether it holds at a sample, counted from 0. Of each there is a hint, where to
/// look for it first.
pub(crate) fn pack(
    recording: &Recording,
    sample: u32,
    atoms: &Atoms,
    hints: &mut [usize],
    letter: &mut Truths,
)
    requires sample { sample < length recording.now.samples }
    requires in_range { All (AtomInRange recording.now.names) atoms.now }
    requires few { length atoms.now < 2 ^ 32 }
    requires hints_len { length hints.old ≡ length atoms.now }
    requires letter_len { length letter.old ≡ length atoms.now }
    ensures { TellsLetter atoms.now (letter_at recording.now sample) letter.new }
{
    for (place, atom) in atoms.as_slice().iter().enumerate() {
        let mut hint = hints[place];
        letter.set(place as u32, holds(recording, sample, atom, &mut hint));
        hints[place] = hint;
    }
}

// Whether an atom holds on the letter of a sample.
fn holds(recording: &Recording, sample: u32, atom: &Atom, hint: &mut usize) -> bool
    requires sample { sample < length recording.now.samples }
    requires in_range { AtomInRange recording.now.names atom.now }
    ensures { result ≡ holds (letter_at recording.now sample) (Test atom.now) }
{
    recording.bit_near(sample, atom, hint)
}
