ghost use Rattle.std.specs.Prelude.{◌≡◌, ℕ, ◌+◌, ◌<◌, ◌≤◌, ◌^◌, [], ◌∷◌, ◌++◌, cond, filter, length, All, IfOk};
ghost use Rattle.psl_tree.specs.Letters.{atom_at, atoms_of, atoms_of_bit};
ghost use Rattle.netlist.specs.Runs.{AreSized, bits_of, letters_from, valuation_at, walk_of, word};
ghost use Rattle.netlist.specs.Sound.{NamesBit};
ghost use Rattle.netlist.specs.Valuations.{bit};

use crate::run::valuation_at;
use crate::{Netlist, Run};
use psl_base::NoMemory;
use psl_tree::{Atom, Atoms, Edge, Letter, Letters, Name, Word};
use std::alloc::Global;

impl Netlist {
    /// The word that a run stands for: a letter for each valuation, and one more, since the loop's first valuation has
    /// the edges from the stem where the loop is entered, and those from the loop's last valuation later.
    pub fn word_of(&self, alloc: Global, run: &Run) -> Result<Word, NoMemory>
        requires loops { 0 < length run.now.loop_part }
        requires stem { All (λ valuation. length valuation ≡ self.now.signals) run.now.stem }
        requires looped { All (λ valuation. length valuation ≡ self.now.signals) run.now.loop_part }
        ensures { IfOk result (λ new. new ≡ word self.now run.now) }
    {
        let entered = run.stem.as_slice().len() + 1;
        let looped = run.loop_part.as_slice().len();
        Ok(Word {
            stem: self.letters(alloc, run, 0, entered)?,
            looped: self.letters(alloc, run, entered, looped)?,
        })
    }

    // So many letters from a place on.
    fn letters(
        &self,
        alloc: Global,
        run: &Run,
        first: usize,
        count: usize,
    ) -> Result<Letters, NoMemory>
        requires places { first + count ≤ length (walk_of run.now) }
        requires fits { first + count < 2 ^ 64 }
        requires sizes { AreSized self.now run.now }
        ensures { IfOk result (λ new. new ≡ letters_from self.now run.now first count) }
    {
        self.facts();
        let names = self.names().as_slice();
        let mut letters = Letters::new(alloc);
        for step in 0..count {
            let atoms = atoms_at(alloc, names, run, first + step)?;
            letters.push(Letter::Holds(atoms))?;
        }
        Ok(letters)
    }
}

// The atoms of names that hold at a place.
fn atoms_at(alloc: Global, names: &[Name], run: &Run, place: usize) -> Result<Atoms, NoMemory>
    requires place { place < length (walk_of run.now) }
    requires sizes { (other : ℕ) → other ≤ place → All (NamesBit (length (valuation_at run.now other))) names.now }
    ensures { IfOk result (λ new. new ≡ filter (atom_at (bits_of run.now) place) (atoms_of names.now)) }
{
    let mut atoms = Atoms::new(alloc);
    for name in names {
        add_atoms(&mut atoms, run, place, name.signal)?;
    }
    Ok(atoms)
}

// Adds the atoms of a signal that hold at a place.
#[tactic(auto, using(crate::proofs::Held::three_atoms))]
fn add_atoms(atoms: &mut Atoms, run: &Run, place: usize, signal: u32) -> Result<(), NoMemory>
    requires place { place < length (walk_of run.now) }
    requires signal { (other : ℕ) → other ≤ place → signal < length (valuation_at run.now other) }
    ensures { IfOk result (λ _. atoms.new ≡ atoms.old ++ filter (atom_at (bits_of run.now) place) (atoms_of_bit signal 0)) }
{
    let atom = |edge| Atom {
        signal,
        bit: 0,
        edge,
    };
    add_held(atoms, run, place, atom(Edge::Value))?;
    add_held(atoms, run, place, atom(Edge::Rise))?;
    add_held(atoms, run, place, atom(Edge::Fall))?;
    Ok(())
}

// Adds an atom where it holds at a place.
fn add_held(atoms: &mut Atoms, run: &Run, place: usize, atom: Atom) -> Result<(), NoMemory>
    requires place { place < length (walk_of run.now) }
    requires signal { (other : ℕ) → other ≤ place → atom.signal < length (valuation_at run.now other) }
    ensures { IfOk result (λ _. atoms.new ≡ atoms.old ++ cond (atom_at (bits_of run.now) place atom) (atom ∷ []) []) }
{
    if holds_at(run, place, atom) {
        atoms.push(atom)?;
    }
    Ok(())
}

// Whether an atom holds at a place. At the first one no bit went anywhere.
fn holds_at(run: &Run, place: usize, atom: Atom) -> bool
    requires place { place < length (walk_of run.now) }
    requires signal { (other : ℕ) → other ≤ place → atom.signal < length (valuation_at run.now other) }
    ensures { result ≡ atom_at (bits_of run.now) place atom }
{
    let signal = atom.signal;
    match atom.edge {
        Edge::Value => is_one(run, place, signal),
        Edge::Rise => { place > 0 && !is_one(run, place - 1, signal) && is_one(run, place, signal) }
        Edge::Fall => { place > 0 && is_one(run, place - 1, signal) && !is_one(run, place, signal) }
    }
}

// Whether a signal is 1 at a place.
fn is_one(run: &Run, place: usize, signal: u32) -> bool
    requires place { place < length (walk_of run.now) }
    requires signal { signal < length (valuation_at run.now place) }
    ensures { result ≡ bit (valuation_at run.now place) signal }
{
    valuation_at(run, place)[signal as usize]
}
