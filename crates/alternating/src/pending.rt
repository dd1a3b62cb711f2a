ghost use Rattle.std.specs.Prelude.{◌≡◌, ◌-◌, ◌+◌, ◌^◌, map, IfOk};
ghost use Rattle.psl_tree.specs.Trees.{boolean_of};
ghost use Rattle.alternating_theory.specs.Construction.{cut_obligation, opposite_obligation};
ghost use Rattle.alternating_theory.specs.Obligations.{Obligation as Owed};
ghost use Rattle.alternating_theory.specs.Positive.{OwesWithin};
ghost use Rattle.alternating.specs.Pending.{negated_by, pending_of, pendings_of};
ghost use Rattle.alternating.specs.Views.{obligation_of, obligations_of_code};

use crate::obligation::Obligation;
use psl_base::NoMemory;
use psl_tree::Bool;
use std::alloc::Global;

/// How often an obligation was negated. An even number is not the same as never: the first negation
/// leaves at most one `Not` at the head of a Boolean. Three are as one.
#[derive(Clone, Copy, Debug)]
pub(crate) enum Negations {
    Never,
    Odd,
    Even,
}

/// An obligation in the making. Its negations are carried out once it is whole: if each went over all
/// obligations below it, nested ones would cost the square of the formula for each of them.
#[derive(Debug, Drop)]
pub(crate) struct Pending {
    pub(crate) obligation: Obligation,
    pub(crate) negations: Negations,
}

impl Pending {
    pub(crate) fn new(obligation: Obligation) -> Pending
        ensures { pending_of result ≡ obligation_of obligation }
    {
        Pending {
            obligation,
            negations: Negations::Never,
        }
    }

    /// An equal one.
    pub(crate) fn copy(&self, alloc: Global) -> Result<Pending, NoMemory>
        ensures { IfOk result (λ new. pending_of new ≡ pending_of self.now) }
    {
        Ok(Pending {
            obligation: self.obligation.copy(alloc)?,
            negations: self.negations,
        })
    }

    /// Negates it.
    pub(crate) fn negate(&mut self)
        ensures { pending_of self.new ≡ opposite_obligation (pending_of self.old) }
    {
        self.negations = once_more(self.negations);
    }

    /// The obligation, negated as often as it is to be.
    pub(crate) fn settled(self, alloc: Global) -> Result<Obligation, NoMemory>
        ensures { IfOk result (λ new. obligation_of new ≡ pending_of self) }
    {
        let Pending {
            obligation,
            negations,
        } = self;
        match negations {
            Negations::Never => Ok(obligation),
            Negations::Odd => obligation.opposite(alloc),
            Negations::Even => obligation.opposite(alloc)?.opposite(alloc),
        }
    }

    /// The copy that may be cut where the Boolean holds, and owes numbers that are larger by so many.
    pub(crate) fn cut(&self, alloc: Global, test: &Bool, by: u32) -> Result<Pending, NoMemory>
        requires { OwesWithin 0 (2 ^ 32 - by) (pending_of self.now).delta }
        ensures { IfOk result (λ new. pending_of new ≡ cut_obligation (λ number. number + by) (boolean_of test.now) (pending_of self.now)) }
    {
        let new = match self.negations {
            Negations::Never => self.obligation.cut(alloc, test, by)?,
            Negations::Odd => self.obligation.opposite(alloc)?.cut(alloc, test, by)?,
            Negations::Even => {
                let negated = self.obligation.opposite(alloc)?;
                negated.opposite(alloc)?.cut(alloc, test, by)?
            }
        };
        Ok(Pending::new(new))
    }
}

// One negation more.
#[tactic(auto, using(crate::proofs::Thrice::opposite_thrice))]
fn once_more(negations: Negations) -> Negations
    ensures { (o : Owed) → negated_by result o ≡ opposite_obligation (negated_by negations o) }
{
    match negations {
        Negations::Never | Negations::Even => Negations::Odd,
        Negations::Odd => Negations::Even,
    }
}

/// Negates each.
pub(crate) fn negate_all(pendings: &mut [Pending])
    ensures { pendings_of pendings.new ≡ map opposite_obligation (pendings_of pendings.old) }
{
    for pending in pendings.iter_mut() {
        pending.negate();
    }
}

/// The obligations, each negated as often as it is to be.
pub(crate) fn settle_all(alloc: Global, pendings: Vec<Pending>) -> Result<Vec<Obligation>, NoMemory>
    ensures { IfOk result (λ new. obligations_of_code new.items ≡ pendings_of pendings.items) }
{
    let mut settled = Vec::new(alloc);
    let mut rest = pendings.into_iter();
    while let Some(pending) = rest.next() {
        settled.push(pending.settled(alloc)?)?;
    }
    Ok(settled)
}
