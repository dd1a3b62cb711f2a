use crate::words::{Letter, holds, holds_not};
use psl_tree::{Bool, Sere};
use vcd_reader::Recording;

/// The longest list that a repetition is looked for in.
const LONGEST: usize = 32;

/// Whether a list is a tick of a clock: its last letter satisfies the clock, and each earlier one the
/// negation of the clock.
pub fn is_tick(recording: &Recording, clock: &Bool, list: &[Letter]) -> bool {
    match list.split_last() {
        None => false,
        Some((last, earlier)) => {
            for letter in earlier {
                if !holds_not(recording, *letter, clock) {
                    return false;
                }
            }
            holds(recording, *last, clock)
        }
    }
}

/// Whether a list satisfies a sequence tightly, under a clock or none.
#[cycle(lists)]
pub fn is_tight(
    recording: &Recording,
    clock: Option<&Bool>,
    list: &[Letter],
    sequence: &Sere,
) -> bool {
    match sequence {
        Sere::Empty => list.is_empty(),
        Sere::One(test) => is_one(recording, clock, list, test),
        // A list of the left and then a list of the right.
        Sere::Concat(left, right) => {
            for cut in 0..=list.len() {
                let (first, rest) = list.split_at(cut);
                if is_tight(recording, clock, first, left)
                    && is_tight(recording, clock, rest, right)
                {
                    return true;
                }
            }
            false
        }
        // A list of the left and a list of the right that share one letter.
        Sere::Fuse(left, right) => {
            for cut in 0..list.len() {
                let (first, _) = list.split_at(cut + 1);
                let (_, rest) = list.split_at(cut);
                if is_tight(recording, clock, first, left)
                    && is_tight(recording, clock, rest, right)
                {
                    return true;
                }
            }
            false
        }
        Sere::Either(left, right) => {
            is_tight(recording, clock, list, left) || is_tight(recording, clock, list, right)
        }
        Sere::Both(left, right) => {
            is_tight(recording, clock, list, left) && is_tight(recording, clock, list, right)
        }
        Sere::Star(part) => is_repeated(recording, clock, list, part),
        Sere::Clocked(part, own) => is_tight(recording, Some(own), list, part),
    }
}

/// One letter that satisfies a Boolean; under a clock a tick whose last letter does.
fn is_one(recording: &Recording, clock: Option<&Bool>, list: &[Letter], test: &Bool) -> bool {
    let is_long_enough = match clock {
        None => list.len() == 1,
        Some(clock) => is_tick(recording, clock, list),
    };
    match list.last() {
        None => false,
        Some(last) => is_long_enough && holds(recording, *last, test),
    }
}

/// Empty, or a list of the part and then a list of the repetition: the places are found at which some
/// number of lists of the part may end.
#[cycle(lists)]
fn is_repeated(recording: &Recording, clock: Option<&Bool>, list: &[Letter], part: &Sere) -> bool {
    let mut ends = [false; LONGEST];
    for end in 0..=list.len() {
        let is_end = end == 0 || is_next_end(recording, clock, list, part, &ends, end);
        if let Some(slot) = ends.get_mut(end) {
            *slot = is_end;
        }
    }
    ends.get(list.len()) == Some(&true)
}

/// Whether a list of the part leads from an earlier end to a place.
#[cycle(lists)]
fn is_next_end(
    recording: &Recording,
    clock: Option<&Bool>,
    list: &[Letter],
    part: &Sere,
    ends: &[bool; LONGEST],
    end: usize,
) -> bool {
    for begin in 0..end {
        if let Some(piece) = list.get(begin..end) {
            if ends.get(begin) == Some(&true) && is_tight(recording, clock, piece, part) {
                return true;
            }
        }
    }
    false
}
