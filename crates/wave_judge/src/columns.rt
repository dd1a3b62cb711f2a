ghost use Rattle.std.specs.Prelude.{◌≡◌, ◌≢◌, ℕ, ◌+◌, ◌<◌, ◌≤◌, ◌^◌, length, All};
ghost use Rattle.psl_tree.specs.Holds.{holds};
ghost use Rattle.psl_tree.specs.Trees.{Test};
ghost use Rattle.alternating.specs.Packed.{bit};
ghost use Rattle.vcd_reader.specs.Sampled.{AtomInRange, letter_at};
ghost use Rattle.wave_judge.specs.Letter.{TellColumns};

use psl_tree::{Atom, Atoms};
use vcd_reader::Recording;

/// Writes of each atom a word that says at which of 64 samples it holds, from the first one on: the lowest bit is that
/// of the first sample. Of each there is a hint, where to look for it first.
pub(crate) fn pack_block(
    recording: &Recording,
    first: u32,
    atoms: &Atoms,
    hints: &mut [usize],
    columns: &mut [u64],
)
    requires samples { first + 64 ≤ length recording.now.samples }
    requires fits { first + 64 < 2 ^ 32 }
    requires in_range { All (AtomInRange recording.now.names) atoms.now }
    requires hints_len { length hints.old ≡ length atoms.now }
    requires columns_len { length columns.old ≡ length atoms.now }
    ensures { TellColumns recording.now first atoms.now columns.new (length atoms.now) }
{
    for (number, atom) in atoms.as_slice().iter().enumerate() {
        let mut hint = hints[number];
        columns[number] = column_of(recording, first, atom, &mut hint);
        hints[number] = hint;
    }
}

// At which of 64 samples an atom holds.
fn column_of(recording: &Recording, first: u32, atom: &Atom, hint: &mut usize) -> u64
    requires samples { first + 64 ≤ length recording.now.samples }
    requires fits { first + 64 < 2 ^ 32 }
    requires in_range { AtomInRange recording.now.names atom.now }
    ensures { (place : ℕ) → place < 64 → bit result place ≡ holds (letter_at recording.now (first + place)) (Test atom.now) }
{
    let mut column = 0;
    for place in (0..64).rev() {
        column = with_bit(column, place, recording.bit_near(first + place, atom, hint));
    }
    column
}

// The word with another value of one bit.
fn with_bit(word: u64, place: u32, value: bool) -> u64
    requires { place < 64 }
    ensures written { bit result place ≡ value }
    ensures others { (other : ℕ) → other < 64 → other ≢ place → bit result other ≡ bit word other }
{
    let mask = 1u64 << place;
    if value { word | mask } else { word & !mask }
}
