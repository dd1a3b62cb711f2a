use crate::tight::{is_tick, is_tight};
use crate::words::{
    Letter, Word, between, cut, dual, dual_letter, holds, letter_at, places, sampled, suffix,
};
use psl_base::NoMemory;
use psl_tree::{Bool, Fl, Sere};
use std::alloc::Global;
use vcd_reader::Recording;

/// What is judged: the recording that samples are of, and the clock in force, if there is one.
#[derive(Clone, Copy)]
struct Scene<'a> {
    recording: &'a Recording,
    clock: Option<&'a Bool>,
}

/// Whether the samples of a recording, and what follows them for ever, satisfy a formula.
pub fn is_satisfied(
    alloc: Global,
    recording: &Recording,
    formula: &Fl,
    past: Option<Letter>,
) -> Result<bool, NoMemory> {
    let word = sampled(alloc, recording.samples(), past)?;
    let scene = Scene {
        recording,
        clock: None,
    };
    satisfies(alloc, scene, &word, formula)
}

#[cycle(formulas)]
fn satisfies(alloc: Global, scene: Scene, word: &Word, formula: &Fl) -> Result<bool, NoMemory> {
    match formula {
        Fl::Now(test) => is_now(alloc, scene, word, test),
        Fl::NowStrong(test) => is_now_strong(alloc, scene, word, test),
        Fl::Weak(sequence) => is_weak(alloc, scene, word, sequence),
        Fl::Strong(sequence) => is_strong(alloc, scene, word, sequence),
        Fl::Not(part) => Ok(!satisfies(alloc, scene, &dual(alloc, word)?, part)?),
        Fl::And(left, right) => {
            Ok(satisfies(alloc, scene, word, left)? && satisfies(alloc, scene, word, right)?)
        }
        Fl::Next(part) => is_next(alloc, scene, word, part),
        Fl::Until(_, _) => is_until(alloc, scene, word, formula),
        Fl::Suffix(_, _) => is_implied(alloc, scene, word, formula),
        Fl::Abort(part, test) => is_aborted(alloc, scene, word, part, test, None),
        Fl::SyncAbort(part, test) => is_aborted(alloc, scene, word, part, test, scene.clock),
        Fl::Clocked(part, clock) => {
            let scene = Scene {
                recording: scene.recording,
                clock: Some(clock),
            };
            satisfies(alloc, scene, word, part)
        }
    }
}

/// The word is empty or its first letter satisfies the Boolean. Under a clock, at each place where
/// the dual of the letters up to it is a tick, its letter does.
fn is_now(alloc: Global, scene: Scene, word: &Word, test: &Bool) -> Result<bool, NoMemory> {
    let Some(clock) = scene.clock else {
        return Ok(match letter_at(word, 0) {
            None => true,
            Some(first) => holds(scene.recording, first, test),
        });
    };
    let swapped = dual(alloc, word)?;
    for place in 0..places(word) {
        let list = between(alloc, &swapped, 0, place + 1)?;
        if is_tick(scene.recording, clock, list.as_slice())
            && !is_on(scene.recording, word, place, test)
        {
            return Ok(false);
        }
    }
    Ok(true)
}

fn is_on(recording: &Recording, word: &Word, place: usize, test: &Bool) -> bool {
    match letter_at(word, place) {
        None => false,
        Some(letter) => holds(recording, letter, test),
    }
}

/// The word is not empty and its first letter satisfies the Boolean. Under a clock, some letters from
/// the first on are a tick of which the last does.
fn is_now_strong(alloc: Global, scene: Scene, word: &Word, test: &Bool) -> Result<bool, NoMemory> {
    let Some(clock) = scene.clock else {
        return Ok(is_on(scene.recording, word, 0, test));
    };
    for place in 0..places(word) {
        let list = between(alloc, word, 0, place + 1)?;
        if is_tick(scene.recording, clock, list.as_slice())
            && is_on(scene.recording, word, place, test)
        {
            return Ok(true);
        }
    }
    Ok(false)
}

/// Some letters from the first on, at least one, satisfy the sequence tightly.
fn is_strong(alloc: Global, scene: Scene, word: &Word, sequence: &Sere) -> Result<bool, NoMemory> {
    for place in 0..places(word) {
        let list = between(alloc, word, 0, place + 1)?;
        if is_tight(scene.recording, scene.clock, list.as_slice(), sequence) {
            return Ok(true);
        }
    }
    Ok(false)
}

/// Cut behind each place, the word satisfies the strong sequence.
fn is_weak(alloc: Global, scene: Scene, word: &Word, sequence: &Sere) -> Result<bool, NoMemory> {
    for place in 0..places(word) {
        if !is_strong(alloc, scene, &cut(alloc, word, place + 1)?, sequence)? {
            return Ok(false);
        }
    }
    Ok(true)
}

/// There is a second place, and the word from there on satisfies the part. Under a clock, a tick and
/// then another tick lead to a place from which the word does.
#[cycle(formulas)]
fn is_next(alloc: Global, scene: Scene, word: &Word, part: &Fl) -> Result<bool, NoMemory> {
    for place in 0..places(word) {
        if is_second(alloc, scene, word, place)?
            && satisfies(alloc, scene, &suffix(alloc, word, place)?, part)?
        {
            return Ok(true);
        }
    }
    Ok(false)
}

/// Whether a place is the second one, or under a clock one at which a second tick ends.
fn is_second(alloc: Global, scene: Scene, word: &Word, place: usize) -> Result<bool, NoMemory> {
    let Some(clock) = scene.clock else {
        return Ok(place == 1);
    };
    for earlier in 0..place {
        let first = between(alloc, word, 0, earlier + 1)?;
        let second = between(alloc, word, earlier + 1, place.saturating_add(1))?;
        if is_tick(scene.recording, clock, first.as_slice())
            && is_tick(scene.recording, clock, second.as_slice())
        {
            return Ok(true);
        }
    }
    Ok(false)
}

/// At some place the right holds, and at each earlier one the left. Under a clock that place satisfies
/// the clock, and the earlier ones count whose dual satisfies it.
#[cycle(formulas)]
fn is_until(alloc: Global, scene: Scene, word: &Word, formula: &Fl) -> Result<bool, NoMemory> {
    let Fl::Until(left, right) = formula else {
        return Ok(false);
    };
    for place in 0..places(word) {
        if is_clocked(scene, letter_at(word, place))
            && satisfies(alloc, scene, &suffix(alloc, word, place)?, right)?
            && is_throughout(alloc, scene, word, left, place)?
        {
            return Ok(true);
        }
    }
    Ok(false)
}

/// Whether a letter satisfies the clock, if one is in force.
fn is_clocked(scene: Scene, letter: Option<Letter>) -> bool {
    match (scene.clock, letter) {
        (Some(clock), Some(letter)) => holds(scene.recording, letter, clock),
        (None, Some(_)) => true,
        (_, None) => false,
    }
}

#[cycle(formulas)]
fn is_throughout(
    alloc: Global,
    scene: Scene,
    word: &Word,
    formula: &Fl,
    end: usize,
) -> Result<bool, NoMemory> {
    for place in 0..end {
        let swapped = match letter_at(word, place) {
            None => None,
            Some(letter) => Some(dual_letter(letter)),
        };
        if is_clocked(scene, swapped)
            && !satisfies(alloc, scene, &suffix(alloc, word, place)?, formula)?
        {
            return Ok(false);
        }
    }
    Ok(true)
}

/// From each place where the dual of the letters up to it satisfies the sequence tightly, the word
/// satisfies the part.
#[cycle(formulas)]
fn is_implied(alloc: Global, scene: Scene, word: &Word, formula: &Fl) -> Result<bool, NoMemory> {
    let Fl::Suffix(sequence, part) = formula else {
        return Ok(false);
    };
    let swapped = dual(alloc, word)?;
    for place in 0..places(word) {
        let list = between(alloc, &swapped, 0, place + 1)?;
        if is_tight(scene.recording, scene.clock, list.as_slice(), sequence)
            && !satisfies(alloc, scene, &suffix(alloc, word, place)?, part)?
        {
            return Ok(false);
        }
    }
    Ok(true)
}

/// The word satisfies the part, or it does cut before some place whose letter satisfies the Boolean,
/// and a clock where one is given.
#[cycle(formulas)]
fn is_aborted(
    alloc: Global,
    scene: Scene,
    word: &Word,
    part: &Fl,
    test: &Bool,
    clock: Option<&Bool>,
) -> Result<bool, NoMemory> {
    if satisfies(alloc, scene, word, part)? {
        return Ok(true);
    }
    let ticking = Scene {
        recording: scene.recording,
        clock,
    };
    for place in 0..places(word) {
        if is_on(scene.recording, word, place, test)
            && is_clocked(ticking, letter_at(word, place))
            && satisfies(alloc, scene, &cut(alloc, word, place)?, part)?
        {
            return Ok(true);
        }
    }
    Ok(false)
}
