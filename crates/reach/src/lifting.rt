// Which bits of an entry's first state are enough to lead into the cube: the values of signals are left out one after the
// other, as long as the others still tell all that the cube and the obligations ask.
use crate::asked_values::Meeting;
use crate::bit_places::{BitPlaces, Says};
use crate::cones::{Cones, cones_of};
use crate::core_bits::no_bits;
use crate::reading::value_at;
use crate::signal_order::{SignalOrder, compute};
use crate::ternary::{Ternaries, Ternary, all_unknown, at, write};
use joint::Joint;
use psl_base::{Bits, NoMemory};
use reach_frames::Entry;
use std::alloc::Global;

// So many signals are left out at once at first.
const FIRST_STEP: usize = 8;

// So many turns there are for each signal, at the most.
const MOST_TURNS: usize = 8;

/// What leads into a cube.
#[derive(Clone, Copy)]
struct Lead<'a> {
    joint: &'a Joint<'a>,
    order: &'a SignalOrder,
    cones: &'a Cones,
    entry: &'a Entry,
    cube: &'a [i32],
    places: BitPlaces,
}

/// Which signals of the first state are kept, and the values that follow from these in both states.
#[derive(Debug, Drop)]
struct Trial {
    kept: Bits,
    now: Ternaries,
    next: Ternaries,
}

/// Writes a bit, where there is a place for it.
fn write_bit(bits: &mut Bits, place: usize, value: bool) {
    if place < bits.len() {
        bits.set(place, value);
    }
}

impl Lead<'_> {
    /// Nothing is kept yet, and nothing is known.
    fn trial(&self, alloc: Global) -> Result<Trial, NoMemory> {
        let signals = self.places.signals;
        Ok(Trial {
            kept: no_bits(alloc, signals as usize)?,
            now: all_unknown(alloc, signals)?,
            next: all_unknown(alloc, signals)?,
        })
    }

    /// Keeps all signals that bear on it, and of which the bits of a state can say enough.
    fn keep_all(&self, trial: &mut Trial) {
        for signal in self.cones.told.as_slice() {
            write_bit(&mut trial.kept, *signal as usize, true);
        }
    }

    /// The value of a signal in the first state, if it is kept.
    fn told_value(&self, kept: &Bits, signal: u32) -> Ternary {
        if value_at(kept, signal as usize) {
            Ternary::of(value_at(&self.entry.before, self.places.now(signal)))
        } else {
            Ternary::Unknown
        }
    }

    /// Notes the values of kept signals in the first state.
    fn note_kept(&self, trial: &mut Trial) {
        for signal in self.cones.told.as_slice() {
            let value = self.told_value(&trial.kept, *signal);
            write(&mut trial.now, *signal as usize, value);
        }
    }

    /// The latches move.
    fn move_latches(&self, trial: &mut Trial) {
        let latches = self.joint.netlist().latches().as_slice();
        for number in self.cones.latches.as_slice() {
            if let Some(latch) = latches.get(*number as usize) {
                let value = at(&trial.now, latch.input as usize);
                write(&mut trial.next, latch.output as usize, value);
            }
        }
    }

    /// The inputs of the second state may be what the cube asks.
    fn choose_inputs(&self, trial: &mut Trial) {
        for literal in self.cube {
            if let Says::Now(signal) = self.places.says(*literal) {
                if value_at(&self.order.is_input, signal) {
                    write(&mut trial.next, signal, Ternary::of(*literal > 0));
                }
            }
        }
    }

    /// Whether a literal of the cube is known to be true of the second state.
    fn is_reached(&self, trial: &Trial, literal: i32) -> bool {
        match self.places.says(literal) {
            Says::Before(signal) => at(&trial.now, signal).is(literal > 0),
            Says::Now(signal) => at(&trial.next, signal).is(literal > 0),
            Says::Other => true,
        }
    }

    /// Whether all literals of the cube are known to be true of the second state.
    fn all_reached(&self, trial: &Trial) -> bool {
        for literal in self.cube {
            if !self.is_reached(trial, *literal) {
                return false;
            }
        }
        true
    }

    /// Whether what is kept is enough.
    fn is_enough(&self, trial: &mut Trial, none: &Bits) -> bool {
        self.note_kept(trial);
        let (cones, netlist) = (self.cones, self.joint.netlist());
        compute(netlist, &cones.now, &trial.kept, &mut trial.now);
        let meeting = Meeting {
            violation: self.joint.violation(),
            places: self.places,
            entry: self.entry,
            now: &trial.now,
        };
        if !meeting.all_met() {
            return false;
        }
        self.move_latches(trial);
        self.choose_inputs(trial);
        compute(netlist, &cones.next, none, &mut trial.next);
        self.all_reached(trial)
    }

    /// Keeps the signals from one place to another, or leaves them out.
    fn keep(&self, trial: &mut Trial, from: usize, to: usize, value: bool) {
        let told = self.cones.told.as_slice();
        for place in from..to.min(told.len()) {
            write_bit(&mut trial.kept, told[place] as usize, value);
        }
    }

    /// Leaves out the signals from one place to another, if the others are still enough: whether they are.
    fn leave_out(&self, trial: &mut Trial, none: &Bits, from: usize, to: usize) -> bool {
        self.keep(trial, from, to, false);
        if self.is_enough(trial, none) {
            return true;
        }
        self.keep(trial, from, to, true);
        false
    }

    /// Leaves out each signal without which the others are still enough, and several at once where none of them is
    /// needed.
    fn leave_out_all(&self, trial: &mut Trial, none: &Bits) {
        let count = self.cones.told.len();
        let mut place: usize = 0;
        let mut step: usize = FIRST_STEP;
        for _ in 0..count.saturating_mul(MOST_TURNS) {
            if place >= count {
                return;
            }
            step = step.min(count - place);
            if self.leave_out(trial, none, place, place + step) {
                place += step;
                step = step.saturating_mul(2);
            } else if step > 1 {
                step = step / 2;
            } else {
                place += 1;
            }
        }
    }

    /// The mask of a state's bits where these signals are kept. What the valuation before says is kept of the signals of
    /// which an edge is tested, and all that is said of obligations.
    fn mask(&self, alloc: Global, kept: &Bits) -> Result<Bits, NoMemory> {
        let (signals, tested) = (self.places.signals, &self.order.slice.tested);
        let mut mask = Bits::new(alloc);
        mask.push(has_any(tested))?;
        push_first(&mut mask, tested, signals)?;
        push_first(&mut mask, kept, signals)?;
        for _ in mask.len()..self.joint.state_bits() as usize {
            mask.push(true)?;
        }
        Ok(mask)
    }
}

/// Whether some bit is set.
fn has_any(bits: &Bits) -> bool {
    for bit in bits.as_slice() {
        if *bit {
            return true;
        }
    }
    false
}

/// Adds the first so many of some bits.
fn push_first(mask: &mut Bits, bits: &Bits, count: u32) -> Result<(), NoMemory> {
    for place in 0..count {
        mask.push(value_at(bits, place as usize))?;
    }
    Ok(())
}

/// A mask of bits of an entry's first state that are enough to lead into a cube, where the signals that an automaton asks
/// about are enough.
pub(crate) fn lifted_mask(
    alloc: Global,
    joint: &Joint,
    order: &SignalOrder,
    entry: &Entry,
    cube: &[i32],
) -> Result<Option<Bits>, NoMemory> {
    let cones = cones_of(alloc, joint, order, entry, cube)?;
    let lead = Lead {
        joint,
        order,
        cones: &cones,
        entry,
        cube,
        places: BitPlaces::of(joint),
    };
    let mut trial = lead.trial(alloc)?;
    let none = no_bits(alloc, lead.places.signals as usize)?;
    lead.keep_all(&mut trial);
    if !lead.is_enough(&mut trial, &none) {
        return Ok(None);
    }
    lead.leave_out_all(&mut trial, &none);
    let mask = lead.mask(alloc, &trial.kept)?;
    Ok(Some(mask))
}
