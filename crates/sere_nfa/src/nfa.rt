ghost use Rattle.std.specs.Prelude.{◌≡◌, ◌≤◌, ◌<◌, ◌↔◌, All, None, List, length, IfOk, IsTrue};
ghost use Rattle.psl_tree.specs.Tight.{Tight};
ghost use Rattle.psl_tree.specs.Counts.{states_of};
ghost use Rattle.psl_tree.specs.Trees.{sequence_of};
ghost use Rattle.psl_tree.specs.declared.letter.Letter.{Letter};
ghost use Rattle.psl_tree.specs.SequenceAutomata.{Accepts, ReachesEnd, state_at};
ghost use Rattle.psl_tree.specs.Clockless.{HasNoClock};
ghost use Rattle.psl_tree.specs.SequenceConstruction.{nfa_of};
ghost use Rattle.sere_nfa.specs.Views.{edges_of};

use crate::alive::alive_marks;
use crate::build::build;
use crate::edge::{Edges, States};
use crate::part::Part;
use crate::state::State;
use psl_base::{Bits, Items, NoMemory};
use psl_tree::{MOST_STATES, Sere, states};
use std::alloc::Global;
use std::marker::Model;
use thiserror::Error;

/// Why there is no automaton of a sequence.
#[derive(Debug, Drop, Error)]
pub enum NfaFault {
    /// The sequence counts more than 1,024 states.
    #[error("the sequence counts more than 1024 states")]
    SereTooLarge,
    /// The allocator refused memory.
    #[error("out of memory")]
    NoMemory,
}

/// An automaton over letters. Contracts see it as its initial states, by number, and its states in
/// order, each with the edges that leave it.
#[derive(Debug, Drop)]
pub struct Nfa {
    initial: States,
    states: Vec<State>,
    alive: Bits,
}

impl Model for Nfa {
    ghost use Rattle.psl_tree.specs.SequenceAutomata.{Automaton};
    ghost use Rattle.sere_nfa.specs.Codes.{automaton_code};

    ghost Value = { Automaton };

    ghost coded = { automaton_code };

    ghost use Rattle.sere_nfa.specs.NfaView.{automaton_of, IsWhole};

    ghost view = { automaton_of };

    ghost invariant = { IsWhole };
}

impl Nfa {
    /// How many states there are. They are numbered from 0 on.
    pub fn len(&self) -> usize
        ensures { result ≡ length self.now.states }
    {
        self.states.len()
    }

    /// The states where a list may begin, by number, counted from 0.
    pub fn initial(&self) -> &States
        ensures shown { result.now ≡ self.now.initial }
        ensures below { All (λ number. number < length self.now.states) result.now }
    {
        &self.initial
    }

    /// The edges that leave a state. States are counted from 0.
    pub fn edges(&self, state: u32) -> &Edges
        requires { state < length self.now.states }
        ensures shown { edges_of result.now ≡ (state_at self.now.states state).edges }
        ensures below { All (λ edge. edge.target < length self.now.states) result.now }
    {
        let found = &self.states[state as usize];
        &found.edges
    }

    /// Whether a list may end in a state. States are counted from 0.
    pub fn is_final(&self, state: u32) -> bool
        requires { state < length self.now.states }
        ensures { result ≡ (state_at self.now.states state).is_final }
    {
        let found = &self.states[state as usize];
        found.is_final
    }

    /// Whether a final state is reached from a state over some letters Top, on which every Boolean
    /// holds, `false` too. States are counted from 0.
    pub fn alive(&self, state: u32) -> bool
        requires { state < length self.now.states }
        ensures { IsTrue result ↔ ReachesEnd self.now.states state }
    {
        *self.alive.at(state as usize)
    }
}

/// The automaton of a sequence without clocks: it accepts exactly the lists of letters that satisfy
/// the sequence tightly (IEEE 1850, Annex B), letters Top and Bottom among them. `SereTooLarge`
/// comes exactly where the sequence counts more than 1,024 states.
pub fn of(alloc: Global, r: &Sere) -> Result<Nfa, NfaFault>
    requires { HasNoClock (sequence_of r.now) }
    ensures built { IfOk result (λ nfa. nfa ≡ nfa_of (sequence_of r.now)) }
    ensures meaning { IfOk result (λ nfa. (letters : List Letter) → Accepts nfa letters ↔ Tight None (sequence_of r.now) letters) }
    ensures size { IfOk result (λ nfa. length nfa.states ≤ states_of (sequence_of r.now)) }
    ensures too_large { (result ≡ Err NfaFault.SereTooLarge) ↔ (MOST_STATES < states_of (sequence_of r.now)) }
{
    if states(r) > MOST_STATES {
        return Err(NfaFault::SereTooLarge);
    }
    match finished(alloc, r) {
        Ok(nfa) => Ok(nfa),
        Err(NoMemory) => Err(NfaFault::NoMemory),
    }
}

// The automaton of a sequence whose states can be numbered.
fn finished(alloc: Global, r: &Sere) -> Result<Nfa, NoMemory>
    requires no_clock { HasNoClock (sequence_of r.now) }
    requires room { states_of (sequence_of r.now) ≤ MOST_STATES }
    ensures built { IfOk result (λ nfa. nfa ≡ nfa_of (sequence_of r.now)) }
    ensures meaning { IfOk result (λ nfa. (letters : List Letter) → Accepts nfa letters ↔ Tight None (sequence_of r.now) letters) }
    ensures size { IfOk result (λ nfa. length nfa.states ≤ states_of (sequence_of r.now)) }
{
    let Part { start, mut states } = build(alloc, 0, r)?;
    let mut initial = Items::new(alloc);
    initial.push(states.len() as u32)?;
    states.push(start)?;
    let alive = alive_marks(alloc, states.as_slice())?;
    Ok(Nfa {
        initial,
        states,
        alive,
    })
}
