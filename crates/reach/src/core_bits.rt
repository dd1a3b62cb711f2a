// Which bits of a cube a refutation used.
use clauses::{Entry, Log};
use psl_base::{Bits, Items, NoMemory, Numbers};
use std::alloc::Global;

/// The clauses of a formula that a log used, and the lemmas of the log that led to its last one.
#[derive(Debug, Drop)]
pub(crate) struct Used {
    clauses: usize,
    of_clauses: Bits,
    of_lemmas: Bits,
}

impl Used {
    /// Nothing is used yet.
    fn new(alloc: Global, clauses: usize, lemmas: usize) -> Result<Used, NoMemory> {
        Ok(Used {
            clauses,
            of_clauses: no_bits(alloc, clauses)?,
            of_lemmas: no_bits(alloc, lemmas)?,
        })
    }

    /// Whether a clause is used, counted from 0.
    pub fn has_clause(&self, place: usize) -> bool {
        place < self.of_clauses.len() && *self.of_clauses.at(place)
    }

    /// Whether a lemma is used, counted from 0.
    fn has_lemma(&self, place: usize) -> bool {
        place < self.of_lemmas.len() && *self.of_lemmas.at(place)
    }

    /// Notes that a clause or a lemma is used, by its number: lemmas follow on clauses, which are counted from 1.
    fn note(&mut self, number: usize) {
        if number > self.clauses {
            set(&mut self.of_lemmas, number - self.clauses - 1);
        } else if number > 0 {
            set(&mut self.of_clauses, number - 1);
        }
    }

    /// Notes what a lemma follows from.
    fn note_all(&mut self, hints: &[u32]) {
        for hint in hints {
            self.note(*hint as usize);
        }
    }
}

/// Sets a bit, where there is one.
pub(crate) fn set(bits: &mut Bits, place: usize) {
    if place < bits.len() {
        bits.set(place, true);
    }
}

/// So many bits, none of which is set.
pub(crate) fn no_bits(alloc: Global, count: usize) -> Result<Bits, NoMemory> {
    let mut bits = Bits::new(alloc);
    for _ in 0..count {
        bits.push(false)?;
    }
    Ok(bits)
}

/// The hints of each lemma of a log.
fn hints_of(alloc: Global, log: &Log) -> Result<Items<Numbers>, NoMemory> {
    let mut lemmas = Items::new(alloc);
    let mut entries = log.entries();
    while let Some(entry) = entries.next() {
        if let Entry::Lemma { literals: _, hints } = entry {
            lemmas.push(Numbers::from_slice(alloc, hints)?)?;
        }
    }
    Ok(lemmas)
}

/// Which of so many clauses a log used: those that its last lemma follows from, back over the hints.
pub(crate) fn used_by(alloc: Global, clauses: usize, log: &Log) -> Result<Used, NoMemory> {
    let lemmas = hints_of(alloc, log)?;
    let mut used = Used::new(alloc, clauses, lemmas.len())?;
    for back in 0..lemmas.len() {
        let lemma = lemmas.len() - 1 - back;
        if back == 0 || used.has_lemma(lemma) {
            used.note_all(lemmas.at(lemma).as_slice());
        }
    }
    Ok(used)
}

/// A mask of the bits of a cube whose clauses were used. These are as many clauses as the cube has literals, from a place
/// on.
pub(crate) fn mask_of(
    alloc: Global,
    width: u32,
    cube: &[i32],
    first: usize,
    used: &Used,
) -> Result<Bits, NoMemory> {
    let mut mask = no_bits(alloc, width as usize)?;
    for place in 0..cube.len() {
        if used.has_clause(first.wrapping_add(place)) {
            set_bit(&mut mask, cube[place]);
        }
    }
    Ok(mask)
}

/// A mask of the bits of a cube whose literals, of the second of two states with so many bits each, are among some.
pub(crate) fn mask_among(
    alloc: Global,
    width: u32,
    cube: &[i32],
    enough: &[i32],
) -> Result<Bits, NoMemory> {
    let mut mask = no_bits(alloc, width as usize)?;
    let mut second = no_bits(alloc, 2 * width as usize)?;
    for literal in enough {
        set_bit(&mut second, *literal);
    }
    for literal in cube {
        let place = literal.unsigned_abs().saturating_add(width) as usize;
        if place > 0 && place <= second.len() && *second.at(place - 1) {
            set_bit(&mut mask, *literal);
        }
    }
    Ok(mask)
}

/// Sets the bit of a literal, where there is one.
pub(crate) fn set_bit(mask: &mut Bits, literal: i32) {
    let variable = literal.unsigned_abs() as usize;
    if variable > 0 {
        set(mask, variable - 1);
    }
}

/// Whether the bit of a literal is set.
pub(crate) fn has_bit(mask: &Bits, literal: i32) -> bool {
    let variable = literal.unsigned_abs() as usize;
    variable > 0 && variable <= mask.len() && *mask.at(variable - 1)
}
