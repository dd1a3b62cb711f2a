// Paths of joint states that may be open.
ghost use Rattle.std.specs.Prelude.{◌≡◌, ◌<◌, length, IfOk, IfSome, OnOk};
ghost use Rattle.prover_bmc.specs.Chains.{IsAsking, IsChain, IsLikely, IsOpened};
ghost use Rattle.prover_bmc.specs.Plans.{IsPlan};
ghost use Rattle.run_terms.specs.Automata.{TestsSignals};

use crate::chain::Chain;
use crate::choices::{all_values_of, choices_of};
use crate::plan::Plan;
use alternating::Alternating;
use cdcl_incremental::Asked;
use clauses::CnfFault;
use netlist::Netlist;
use prover_held::Choices;
use psl_base::{Bits, Items, NoMemory};
use std::alloc::Global;
use std::marker::Model;
use std::mem;

// A path that is open at a window is open at each smaller one, so a window so many times as large is asked for first.
const TIMES_AHEAD: u32 = 2;

// It may be closed, and then that is of no use: it is asked for with so many conflicts at most.
const CONFLICTS_AHEAD: u64 = 1_000;

/// Joint states that are likely to be an open path: one more than its window.
#[derive(Debug, Drop)]
pub struct Likely {
    /// Values of the latches at the first one, and of the inputs at each.
    pub choices: Choices,
    /// For each one the obligations that are owed, and those that are pending: a value for each obligation.
    pub owed: Items<Bits>,
    pub pending: Items<Bits>,
    // For each one the values by which it may differ from others.
    along: Items<Bits>,
}

impl Likely {
    /// The window at which they are likely to be open.
    pub fn window(&self) -> u32 {
        u32::try_from(self.choices.inputs.len().saturating_sub(1)).unwrap_or(u32::MAX)
    }
}

/// What is told of a window.
#[derive(Debug, Drop)]
pub enum Opened {
    /// These are likely to keep it open.
    Likely(Likely),
    /// A larger window was asked for, and is not told to be open. From now on one window is asked for after the other.
    Closer,
    /// It is likely to be closed.
    None,
    /// Nothing: the steps were spent, or there is no room for a longer path.
    Nothing,
}

/// The places that are asked for.
#[derive(Drop)]
pub(crate) enum Asking {
    /// Those of windows far ahead, as long as these are open.
    Far(Chain),
    /// Those of one window after the other, once one far ahead was not told to be open.
    Near(Chain),
    /// Nothing more is told.
    Ended,
}

/// Paths of joint states of a netlist and an automaton, longer and longer ones. Contracts see the netlist.
pub struct Opens<'a> {
    plan: Plan<'a>,
    asking: Asking,
}

impl<'a> Model for Opens<'a> {
    ghost use Rattle.netlist.specs.Design.{Design};
    ghost use Rattle.prover_bmc.specs.Fields.{design_of, IsHeld};

    ghost Value = { Design };

    ghost view = { design_of };

    ghost invariant = { IsHeld };
}

// Written out, so that a caller's proof sees one call where a value is dropped.
impl Drop for Opens<'_> {
    fn drop(self) {
        let Opens { plan: _, asking: _ } = self;
    }
}

impl<'a> Opens<'a> {
    /// No window yet.
    ///
    /// # Errors
    ///
    /// `NoMemory` if memory is refused.
    pub fn new(
        alloc: Global,
        netlist: &'a Netlist,
        automaton: &'a Alternating,
    ) -> Result<Opens<'a>, NoMemory>
        requires { TestsSignals netlist.now automaton.now }
        ensures netlist { IfOk result (λ opens. opens ≡ netlist.now) }
    {
        let plan = Plan::new(alloc, netlist, automaton)?;
        let asking = match Chain::new(alloc, &plan) {
            Ok(chain) => Asking::Far(chain),
            Err(CnfFault::TooLarge) => Asking::Ended,
            Err(CnfFault::NoMemory) => return Err(NoMemory),
        };
        Ok(Opens { plan, asking })
    }

    /// Asks for an open path of a window, which is no smaller than any before, or of a larger one up to the most, with at
    /// most so many conflicts. After `Nothing`, and after an error, it tells nothing more.
    ///
    /// # Errors
    ///
    /// `NoMemory` if memory is refused.
    pub fn ask(
        &mut self,
        alloc: Global,
        window: u32,
        most: u32,
        steps: u64,
    ) -> Result<Opened, NoMemory>
        ensures netlist { self.new ≡ self.old }
        ensures opened { IfOk result (IsOpened self.old) }
    {
        let asking = mem::replace(&mut self.asking, Asking::Ended);
        match asked(alloc, &self.plan, asking, window, most, steps) {
            Ok((asking, opened)) => {
                self.asking = asking;
                Ok(opened)
            }
            Err(CnfFault::TooLarge) => Ok(Opened::Nothing),
            Err(CnfFault::NoMemory) => Err(NoMemory),
        }
    }

    /// Asks from now on that of some states those that are alike differ. It says whether some are.
    ///
    /// # Errors
    ///
    /// `NoMemory` if memory is refused.
    pub fn part(&mut self, alloc: Global, likely: &Likely) -> Result<bool, NoMemory>
        ensures netlist { self.new ≡ self.old }
    {
        let asking = mem::replace(&mut self.asking, Asking::Ended);
        match parted(alloc, &self.plan, asking, likely.along.as_slice()) {
            Ok((asking, are_parted)) => {
                self.asking = asking;
                Ok(are_parted)
            }
            Err(CnfFault::TooLarge) => Ok(false),
            Err(CnfFault::NoMemory) => Err(NoMemory),
        }
    }
}

// What is told of a window, or of a larger one up to the most.
fn asked(
    alloc: Global,
    plan: &Plan<'_>,
    asking: Asking,
    window: u32,
    most: u32,
    steps: u64,
) -> Result<(Asking, Opened), CnfFault>
    requires plan { IsPlan plan.now }
    requires asking { IsAsking plan.now asking }
    ensures asking { IfOk result (λ both. IsAsking plan.now both.0) }
    ensures opened { IfOk result (λ both. IsOpened plan.now.netlist.now both.1) }
{
    match asking {
        Asking::Far(chain) => {
            let far = window.saturating_mul(TIMES_AHEAD).min(most).max(window);
            match told_far(alloc, plan, chain, far, steps.min(CONFLICTS_AHEAD))? {
                Some((chain, likely)) => Ok((Asking::Far(chain), Opened::Likely(likely))),
                None => Ok((Asking::Near(Chain::new(alloc, plan)?), Opened::Closer)),
            }
        }
        Asking::Near(chain) => {
            let (chain, opened) = told(alloc, plan, chain, window, steps)?;
            Ok((Asking::Near(chain), opened))
        }
        Asking::Ended => Ok((Asking::Ended, Opened::Nothing)),
    }
}

// Joint states that are likely to keep a window far ahead open, if some are found, and the chain.
fn told_far(
    alloc: Global,
    plan: &Plan<'_>,
    chain: Chain,
    window: u32,
    steps: u64,
) -> Result<Option<(Chain, Likely)>, CnfFault>
    requires plan { IsPlan plan.now }
    requires chain { IsChain plan.now chain }
    ensures chain { IfOk result (λ found. IfSome found (λ both. IsChain plan.now both.0)) }
    ensures likely { IfOk result (λ found. IfSome found (λ both. IsLikely plan.now.netlist.now both.1)) }
{
    let (chain, opened) = match told(alloc, plan, chain, window, steps) {
        Ok(both) => both,
        Err(CnfFault::TooLarge) => return Ok(None),
        Err(CnfFault::NoMemory) => return Err(CnfFault::NoMemory),
    };
    match opened {
        Opened::Likely(likely) => Ok(Some((chain, likely))),
        Opened::Closer | Opened::None | Opened::Nothing => Ok(None),
    }
}

// The places that are asked for, where those that are alike have to differ from now on, and whether some are.
fn parted(
    alloc: Global,
    plan: &Plan<'_>,
    asking: Asking,
    along: &[Bits],
) -> Result<(Asking, bool), CnfFault>
    requires plan { IsPlan plan.now }
    requires asking { IsAsking plan.now asking }
    ensures { IfOk result (λ both. IsAsking plan.now both.0) }
{
    match asking {
        Asking::Far(mut chain) => {
            let are_parted = part_alike(alloc, plan, &mut chain, along)?;
            Ok((Asking::Far(chain), are_parted))
        }
        Asking::Near(mut chain) => {
            let are_parted = part_alike(alloc, plan, &mut chain, along)?;
            Ok((Asking::Near(chain), are_parted))
        }
        Asking::Ended => Ok((Asking::Ended, false)),
    }
}

// Asks from now on that each place, of those before the last, differs from the first one with the same values: one question
// parts many that way, of the pairs that may be alike.
fn part_alike(
    alloc: Global,
    plan: &Plan<'_>,
    chain: &mut Chain,
    along: &[Bits],
) -> Result<bool, CnfFault>
    requires plan { IsPlan plan.now }
    requires chain { IsChain plan.now chain.old }
    ensures { OnOk result (IsChain plan.now chain.new) }
{
    let mut are_parted = false;
    for second in 1..along.len().saturating_sub(1) {
        if let Some(first) = alike_before(along, second) {
            chain.part(alloc, plan, first, second)?;
            are_parted = true;
        }
    }
    Ok(are_parted)
}

// A chain with as many places more as a window asks for.
fn widened(alloc: Global, plan: &Plan<'_>, chain: Chain, window: u32) -> Result<Chain, CnfFault>
    requires plan { IsPlan plan.now }
    requires chain { IsChain plan.now chain }
    ensures { IfOk result (IsChain plan.now) }
{
    let mut widened = chain;
    for _place in widened.window()..window as usize {
        widened = widened.widen(alloc, plan)?;
    }
    Ok(widened)
}

// What is told of a window, and the chain, which is as long as it asks for.
fn told(
    alloc: Global,
    plan: &Plan<'_>,
    chain: Chain,
    window: u32,
    steps: u64,
) -> Result<(Chain, Opened), CnfFault>
    requires plan { IsPlan plan.now }
    requires chain { IsChain plan.now chain }
    ensures chain { IfOk result (λ both. IsChain plan.now both.0) }
    ensures opened { IfOk result (λ both. IsOpened plan.now.netlist.now both.1) }
{
    let mut widened = widened(alloc, plan, chain, window)?;
    let opened = match widened.ask(alloc, plan, steps)? {
        Asked::Model(values) => Opened::Likely(likely_in(alloc, plan, &widened, &values)?),
        Asked::Refuted(_core) => Opened::None,
        Asked::Spent => Opened::Nothing,
    };
    Ok((widened, opened))
}

// The joint states of a model.
fn likely_in(
    alloc: Global,
    plan: &Plan<'_>,
    chain: &Chain,
    values: &Bits,
) -> Result<Likely, CnfFault>
    requires chain { IsChain plan.now chain.now }
    ensures { IfOk result (IsLikely plan.now.netlist.now) }
{
    let _signals = plan.netlist.signals();
    let listed = &chain.listed;
    let latches = listed.latches.at(0);
    Ok(Likely {
        choices: choices_of(alloc, values, latches, &listed.inputs)?,
        owed: all_values_of(alloc, values, listed.owed.as_slice())?,
        pending: all_values_of(alloc, values, listed.pending.as_slice())?,
        along: listed.values_along(alloc, values)?,
    })
}

// The first place before another one with the same values.
fn alike_before(along: &[Bits], second: usize) -> Option<usize>
    requires { second < length along.now }
{
    for first in 0..second {
        if along[first].as_slice() == along[second].as_slice() {
            return Some(first);
        }
    }
    None
}
