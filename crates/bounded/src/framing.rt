// The frames of a search.
ghost use Rattle.std.specs.Prelude.{◌≡◌, ◌≤◌, ◌<◌, ◌∷◌, ℕ, suc, [], true, length, map, All, IfErr, IfOk, OnOk};
ghost use Rattle.std.specs.List.{range_with_len};
ghost use Rattle.clauses.specs.declared.flat.CnfFault.{CnfFault};
ghost use Rattle.clauses.specs.declared.flat.TheConstants.{MOST_VARIABLES};
ghost use Rattle.gates_builder.specs.Adding.{with_nodes, AreOf};
ghost use Rattle.gates_covers.specs.Greedy as covers;
ghost use Rattle.gates_frames.specs.Frames.{frame_at};
ghost use Rattle.gates_nodes.specs.Nodes.{variables_of};
ghost use Rattle.netlist.specs.Valuations.{bit};
ghost use Rattle.run_terms.specs.Automata.{TestsSignals};
ghost use Rattle.bounded.specs.Framing.{IsFramed};
ghost use Rattle.bounded.specs.Searches as spec;
ghost use Rattle.bounded.specs.Searches.{search_variables};

use crate::facts::automaton_law;
use crate::tested::signals_of;
use alternating::Alternating;
use clauses::{CnfFault, MOST_VARIABLES};
use gates_builder::Builder;
use gates_cone::{cone_with_latches, frames_law};
use gates_covers::covers_of;
use gates_order::order_of;
use gates_theory::Literals;
use gates_unroll::{first_frame, growing_law, next_frame};
use netlist::{Netlist, soundness_law};
use psl_base::{Bits, Items, NoMemory};
use std::alloc::Global;

/// Of each frame the literals of the signals.
pub(crate) type Frames = Items<Literals>;

// A list of one frame.
fn alone(alloc: Global, frame: Literals) -> Result<Frames, NoMemory>
    ensures { IfOk result (λ frames. frames ≡ frame ∷ []) }
{
    let mut frames = Frames::new(alloc);
    frames.push(frame)?;
    Ok(frames)
}

// The frames up to one of a number.
fn add_frames(
    alloc: Global,
    builder: &mut Builder,
    netlist: &Netlist,
    order: &[u32],
    cone: &Bits,
    last: u32,
) -> Result<Frames, CnfFault>
    requires order { All (λ table. table < length netlist.now.tables) order.now }
    requires covers { length netlist.now.tables ≤ length builder.old.covers }
    requires cone { length cone.now ≡ netlist.now.signals }
    requires last { last < MOST_VARIABLES }
    ensures builder { OnOk result (builder.new ≡ with_nodes builder.old (frame_at builder.old.covers builder.old.given
        netlist.now order.now (bit cone.now) true builder.old.nodes last).nodes) }
    ensures frames { IfOk result (λ frames. frames ≡ map (λ place. (frame_at builder.old.covers builder.old.given
        netlist.now order.now (bit cone.now) true builder.old.nodes place).literals) (range_with_len 0 (suc last))) }
    ensures are { IfOk result (All (AreOf builder.new)) }
    ensures sizes { IfOk result (All (λ literals. length literals ≡ netlist.now.signals)) }
    ensures large { IfErr result (λ fault. fault ≡ CnfFault.TooLarge → MOST_VARIABLES < variables_of builder.old.given
        (frame_at builder.old.covers builder.old.given netlist.now order.now (bit cone.now) true builder.old.nodes
        last).nodes) }
{
    growing_law();
    let first = first_frame(alloc, builder, netlist, order, cone, true)?;
    let mut frames = alone(alloc, first)?;
    for earlier in 0..last {
        let before = frames.at(earlier as usize);
        let next = next_frame(alloc, builder, netlist, order, cone, earlier + 1, before)?;
        frames.push(next)?;
    }
    Ok(frames)
}

// What feeds the automaton's atoms and the latches.
fn search_cone(alloc: Global, netlist: &Netlist, violation: &Alternating) -> Result<Bits, NoMemory>
    requires { TestsSignals netlist.now violation.now }
    ensures size { IfOk result (λ cone. length cone ≡ netlist.now.signals) }
    ensures is { IfOk result (λ cone. (signal : ℕ) → signal < netlist.now.signals
        → bit cone signal ≡ spec.search_cone netlist.now violation.now signal) }
{
    soundness_law(netlist);
    let tested = signals_of(alloc, violation)?;
    cone_with_latches(alloc, netlist, tested.as_slice())
}

// No nodes, with the covers of the tables.
fn no_nodes(alloc: Global, netlist: &Netlist) -> Result<Builder, NoMemory>
    ensures { IfOk result (λ builder. builder
        ≡ record { given = 0; covers = covers.covers_of netlist.now.tables; nodes = [] }) }
{
    let covers = covers_of(alloc, netlist.tables().as_slice())?;
    Ok(Builder::new(alloc, 0, covers))
}

/// The frames of a search, and their nodes.
#[derive(Drop)]
pub(crate) struct Framed {
    pub builder: Builder,
    pub frames: Frames,
    /// Of each signal whether it has a literal of its own.
    pub cone: Bits,
}

/// The frames of a search for a run of so many valuations.
pub(crate) fn search_frames(
    alloc: Global,
    netlist: &Netlist,
    violation: &Alternating,
    last: u32,
) -> Result<Framed, CnfFault>
    requires tests { TestsSignals netlist.now violation.now }
    ensures framed { IfOk result (IsFramed netlist.now violation.now last) }
    ensures large { IfErr result (λ fault. fault ≡ CnfFault.TooLarge
        → MOST_VARIABLES < search_variables netlist.now violation.now last) }
{
    soundness_law(netlist);
    automaton_law(violation);
    frames_law();
    if last >= MOST_VARIABLES {
        return Err(CnfFault::TooLarge);
    }
    let cone = search_cone(alloc, netlist, violation)?;
    let order = order_of(alloc, netlist)?;
    let mut builder = no_nodes(alloc, netlist)?;
    let frames = add_frames(alloc, &mut builder, netlist, order.as_slice(), &cone, last)?;
    Ok(Framed {
        builder,
        frames,
        cone,
    })
}
