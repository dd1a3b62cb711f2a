ghost use Rattle.std.specs.Prelude.{◌≡◌};
ghost use Rattle.std.specs.List.{list_any};
ghost use Rattle.psl_tree.specs.Trees.{boolean_of};
ghost use Rattle.psl_tree.specs.Holds.{holds, holds_among, is_same_atom};

use crate::{Atom, Atoms, Bool, same_atom};
use psl_base::Items;

/// What one moment tells: the atoms that hold, or one of the two letters that no recording has.
/// Every Boolean holds on Top and none on Bottom (IEEE 1850, Annex B).
#[derive(Debug, Drop)]
pub enum Letter {
    Top,
    Bottom,
    Holds(Atoms),
}

/// Letters in order.
pub type Letters = Items<Letter>;

/// A word: a stem and a loop that follows it for ever. It is finite where the loop is empty.
#[derive(Debug, Drop)]
pub struct Word {
    pub stem: Letters,
    pub looped: Letters,
}

/// Whether a Boolean holds on a letter (IEEE 1850, clause 5 and Annex B).
pub fn holds(letter: &Letter, test: &Bool) -> bool
    ensures { result ≡ holds letter.now (boolean_of test.now) }
{
    match letter {
        Letter::Top => true,
        Letter::Bottom => false,
        Letter::Holds(atoms) => holds_on(atoms.as_slice(), test),
    }
}

fn holds_on(atoms: &[Atom], test: &Bool) -> bool
    ensures { result ≡ holds_among atoms.now (boolean_of test.now) }
{
    match test {
        Bool::Const(value) => *value,
        Bool::Test(atom) => is_among(atom, atoms),
        Bool::Not(part) => !holds_on(atoms, part),
        Bool::And(left, right) => holds_on(atoms, left) && holds_on(atoms, right),
        Bool::Or(left, right) => holds_on(atoms, left) || holds_on(atoms, right),
    }
}

fn is_among(atom: &Atom, atoms: &[Atom]) -> bool
    ensures { result ≡ list_any (λ held. is_same_atom atom.now held) atoms.now }
{
    atoms.iter().any(|held| same_atom(atom, held))
}
