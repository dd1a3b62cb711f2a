ghost use Rattle.std.specs.Prelude.{◌≡◌, length};
ghost use Rattle.psl_tree.specs.Trees.{Test, boolean_of};
ghost use Rattle.alternating_blocks.specs.Block.{TellsBoolean};
ghost use Rattle.alternating_blocks.specs.Plan.{TestsTell};

use crate::words::filled;
use psl_tree::{Atom, Atoms, Bool, same_atom};

/// 64 letters.
#[derive(Clone, Copy)]
pub struct Letters<'a> {
    pub atoms: &'a Atoms,
    /// Of each atom a word that says at which letters it holds: the lowest bit is that of the first letter.
    pub columns: &'a [u64],
}

impl Letters<'_> {
    /// Writes of each Boolean at which of the letters it holds.
    pub(crate) fn tell(&self, tests: &[Bool], into: &mut [u64])
        requires columns { length self.now.columns.now ≡ length self.now.atoms.now }
        requires into_len { length into.old ≡ length tests.now }
        ensures { TestsTell self.now.atoms.now self.now.columns.now tests.now into.new }
    {
        for number in 0..tests.len() {
            into[number] = word_of(self.columns, self.atoms.as_slice(), &tests[number]);
        }
    }
}

// At which of the letters a Boolean holds, from the columns of its atoms.
fn word_of(columns: &[u64], atoms: &[Atom], test: &Bool) -> u64
    requires { length columns.now ≡ length atoms.now }
    ensures { TellsBoolean atoms.now columns.now (boolean_of test.now) result }
{
    match test {
        Bool::Const(value) => filled(*value),
        Bool::Test(atom) => column_of(columns, atoms, atom),
        Bool::Not(part) => !word_of(columns, atoms, part),
        Bool::And(left, right) => word_of(columns, atoms, left) & word_of(columns, atoms, right),
        Bool::Or(left, right) => word_of(columns, atoms, left) | word_of(columns, atoms, right),
    }
}

fn column_of(columns: &[u64], atoms: &[Atom], atom: &Atom) -> u64
    requires { length columns.now ≡ length atoms.now }
    ensures { TellsBoolean atoms.now columns.now (Test atom.now) result }
{
    for (number, tested) in atoms.iter().enumerate() {
        if same_atom(atom, tested) {
            return columns[number];
        }
    }
    0
}
