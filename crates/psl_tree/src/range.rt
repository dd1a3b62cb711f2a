ghost use Rattle.std.specs.Prelude.{IsTrue, ◌↔◌, ◌≡◌, ◌<◌};
ghost use Rattle.psl_tree.specs.Atoms.{AtomsOfBoolean, AtomsOfSequence, AtomsOfFormula};
ghost use Rattle.psl_tree.specs.Names.{AtomInRange, indices};
ghost use Rattle.psl_tree.specs.Trees.{boolean_of, sequence_of, formula_of};

use crate::{Atom, Bool, Fl, Name, Names, Sere};

/// Whether some name has the atom's signal, and each name that has it has the atom's bit.
pub fn is_in_range(names: &Names, atom: &Atom) -> bool
    ensures { IsTrue result ↔ AtomInRange names.now atom.now }
{
    is_atom_in_range(names.as_slice(), atom)
}

/// Whether all atoms of a formula are in range of the names, those of its sequences and clocks too.
pub fn are_in_range(names: &Names, f: &Fl) -> bool
    ensures { IsTrue result ↔ AtomsOfFormula (AtomInRange names.now) (formula_of f.now) }
{
    is_formula_in_range(names.as_slice(), f)
}

fn is_within(name: &Name, atom: &Atom) -> bool
    ensures { IsTrue result ↔ (name.now.signal ≡ atom.now.signal → atom.now.bit < indices name.now) }
{
    let wide = name.left.abs_diff(name.right);
    name.signal != atom.signal || atom.bit <= wide
}

fn is_atom_in_range(names: &[Name], atom: &Atom) -> bool
    ensures { IsTrue result ↔ AtomInRange names.now atom.now }
{
    names.iter().any(|name| name.signal == atom.signal)
        && names.iter().all(|name| is_within(name, atom))
}

fn is_boolean_in_range(names: &[Name], test: &Bool) -> bool
    ensures { IsTrue result ↔ AtomsOfBoolean (AtomInRange names.now) (boolean_of test.now) }
{
    match test {
        Bool::Const(_) => true,
        Bool::Test(atom) => is_atom_in_range(names, atom),
        Bool::Not(part) => is_boolean_in_range(names, part),
        Bool::And(left, right) | Bool::Or(left, right) => {
            is_boolean_in_range(names, left) && is_boolean_in_range(names, right)
        }
    }
}

fn is_sequence_in_range(names: &[Name], sequence: &Sere) -> bool
    ensures { IsTrue result ↔ AtomsOfSequence (AtomInRange names.now) (sequence_of sequence.now) }
{
    match sequence {
        Sere::Empty => true,
        Sere::One(test) => is_boolean_in_range(names, test),
        Sere::Star(part) => is_sequence_in_range(names, part),
        Sere::Clocked(part, clock) => {
            is_sequence_in_range(names, part) && is_boolean_in_range(names, clock)
        }
        Sere::Concat(left, right)
        | Sere::Fuse(left, right)
        | Sere::Either(left, right)
        | Sere::Both(left, right) => {
            is_sequence_in_range(names, left) && is_sequence_in_range(names, right)
        }
    }
}

fn is_formula_in_range(names: &[Name], f: &Fl) -> bool
    ensures { IsTrue result ↔ AtomsOfFormula (AtomInRange names.now) (formula_of f.now) }
{
    match f {
        Fl::Now(test) | Fl::NowStrong(test) => is_boolean_in_range(names, test),
        Fl::Weak(sequence) | Fl::Strong(sequence) => is_sequence_in_range(names, sequence),
        Fl::Not(part) | Fl::Next(part) => is_formula_in_range(names, part),
        Fl::And(left, right) | Fl::Until(left, right) => {
            is_formula_in_range(names, left) && is_formula_in_range(names, right)
        }
        Fl::Suffix(sequence, part) => {
            is_sequence_in_range(names, sequence) && is_formula_in_range(names, part)
        }
        Fl::Abort(part, test) | Fl::SyncAbort(part, test) | Fl::Clocked(part, test) => {
            is_formula_in_range(names, part) && is_boolean_in_range(names, test)
        }
    }
}
