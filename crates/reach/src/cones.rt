// The signals that bear on whether some bits of an entry's first state are enough to lead into a cube. The others are left
// out without a look.
use crate::bit_places::{BitPlaces, Says};
use crate::core_bits::{no_bits, set};
use crate::reading::value_at;
use crate::signal_order::{SignalOrder, add_kept, kept_latches, kept_tables};
use alternating::{Alternating, Positive};
use joint::Joint;
use netlist::{Netlist, Signals};
use psl_base::{Bits, NoMemory};
use psl_tree::Bool;
use reach_frames::Entry;
use std::alloc::Global;

/// What bears on it.
#[derive(Debug, Drop)]
pub(crate) struct Cones {
    /// The signals of the first state whose values can be kept, in the order in which they are left out.
    pub told: Signals,
    /// The tables that are computed in the first state, by their numbers: each stands behind those whose outputs it reads.
    pub now: Signals,
    /// The same of the second state.
    pub next: Signals,
    /// The latches that move, by their numbers.
    pub latches: Signals,
}

/// Marks the signals of which a Boolean asks.
fn mark_boolean(test: &Bool, marks: &mut Bits) {
    match test {
        Bool::Const(_) => {}
        Bool::Test(atom) => set(marks, atom.signal as usize),
        Bool::Not(part) => mark_boolean(part, marks),
        Bool::And(left, right) | Bool::Or(left, right) => {
            mark_boolean(left, marks);
            mark_boolean(right, marks);
        }
    }
}

/// Marks the signals of which an obligation asks.
fn mark_asked(asked: &Positive, marks: &mut Bits) {
    match asked {
        Positive::Const(_) | Positive::Owed(_) => {}
        Positive::Holds(test) => mark_boolean(test, marks),
        Positive::And(left, right) | Positive::Or(left, right) => {
            mark_asked(left, marks);
            mark_asked(right, marks);
        }
    }
}

/// Marks the signals of which the obligations ask that are owed or pending in a state.
fn mark_obligations(violation: &Alternating, places: BitPlaces, state: &Bits, marks: &mut Bits) {
    for number in 0..violation.len() {
        if value_at(state, places.owed(number)) || value_at(state, places.pending(number)) {
            mark_asked(violation.delta(number), marks);
        }
    }
}

/// Marks the signals of which a cube asks in the second state: their values before, which are those of the first state,
/// and their values.
fn mark_cube(places: BitPlaces, cube: &[i32], now: &mut Bits, next: &mut Bits) {
    for literal in cube {
        match places.says(*literal) {
            Says::Before(signal) => set(now, signal),
            Says::Now(signal) => set(next, signal),
            Says::Other => {}
        }
    }
}

/// Marks the inputs of latches whose outputs are marked in the next state.
fn mark_moved(netlist: &Netlist, latches: &Signals, next: &Bits, now: &mut Bits) {
    for number in latches.as_slice() {
        if let Some(latch) = netlist.latches().as_slice().get(*number as usize) {
            if value_at(next, latch.output as usize) {
                set(now, latch.input as usize);
            }
        }
    }
}

/// What bears on whether some bits of an entry's first state are enough to lead into a cube.
pub(crate) fn cones_of(
    alloc: Global,
    joint: &Joint,
    order: &SignalOrder,
    entry: &Entry,
    cube: &[i32],
) -> Result<Cones, NoMemory> {
    let (netlist, places) = (joint.netlist(), BitPlaces::of(joint));
    let mut now = no_bits(alloc, places.signals as usize)?;
    let mut next = no_bits(alloc, places.signals as usize)?;
    mark_cube(places, cube, &mut now, &mut next);
    order.mark_sources(netlist, &mut next);
    mark_moved(netlist, &order.latches, &next, &mut now);
    mark_obligations(joint.violation(), places, &entry.before, &mut now);
    order.mark_sources(netlist, &mut now);
    let mut told = Signals::new(alloc);
    add_kept(&mut told, &order.told, &now)?;
    Ok(Cones {
        told,
        now: kept_tables(alloc, netlist, &order.tables, &now)?,
        next: kept_tables(alloc, netlist, &order.tables, &next)?,
        latches: kept_latches(alloc, netlist, &next)?,
    })
}
