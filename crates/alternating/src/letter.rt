ghost use Rattle.std.specs.Prelude.{◌≡◌, ◌≢◌, ℕ, ◌*◌, ◌<◌, ◌≤◌, length};
ghost use Rattle.psl_tree.specs.Holds.{holds};
ghost use Rattle.psl_tree.specs.Trees.{boolean_of};
ghost use Rattle.alternating.specs.Packed.{bit, is_set, held_from, is_held, letter_of};

use psl_tree::{Atom, Bool, same_atom};

/// Whether the bit of a number is 1, the lowest of the first word first.
pub(crate) fn is_set(words: &[u32], place: usize) -> bool
    requires { place < 32 * length words.now }
    ensures { result ≡ is_set words.now place }
{
    (words[place / 32] >> (place % 32)) % 2 == 1
}

/// The word with another value of one bit.
pub(crate) fn with_bit(word: u32, place: u32, value: bool) -> u32
    requires { place < 32 }
    ensures written { bit result place ≡ value }
    ensures others { (other : ℕ) → other < 32 → other ≢ place → bit result other ≡ bit word other }
{
    let mask = 1u32 << place;
    if value { word | mask } else { word & !mask }
}

/// Whether a Boolean holds on the letter on which just the atoms hold whose bits are 1.
pub(crate) fn holds(letter: &[u32], atoms: &[Atom], test: &Bool) -> bool
    requires { length atoms.now ≤ 32 * length letter.now }
    ensures { result ≡ holds (letter_of atoms.now letter.now) (boolean_of test.now) }
{
    match test {
        Bool::Const(value) => *value,
        Bool::Test(atom) => is_held(letter, atoms, atom),
        Bool::Not(part) => !holds(letter, atoms, part),
        Bool::And(left, right) => holds(letter, atoms, left) && holds(letter, atoms, right),
        Bool::Or(left, right) => holds(letter, atoms, left) || holds(letter, atoms, right),
    }
}

fn is_held(letter: &[u32], atoms: &[Atom], atom: &Atom) -> bool
    requires { length atoms.now ≤ 32 * length letter.now }
    ensures { result ≡ is_held (held_from 0 letter.now atoms.now) atom.now }
{
    for (place, tested) in atoms.iter().enumerate() {
        if same_atom(atom, tested) && is_set(letter, place) {
            return true;
        }
    }
    false
}
