// Paths that grow, and what is owed along them.
ghost use Rattle.std.specs.Prelude.{◌≡◌, IfOk};
ghost use Rattle.prover_bmc.specs.Hints.{IsHint};
ghost use Rattle.run_terms.specs.Automata.{TestsSignals};

use crate::path::Path;
use crate::plan::Plan;
use alternating::Alternating;
use clauses::CnfFault;
use netlist::Netlist;
use prover_held::Choices;
use psl_base::NoMemory;
use std::alloc::Global;
use std::marker::Model;

/// What is told of the paths of one length.
#[derive(Debug, Drop)]
pub enum Told {
    /// The path of these choices is likely to be one.
    Path(Choices),
    /// There is none.
    None,
    /// Nothing: the steps were spent, or there is no room for a longer path.
    Nothing,
}

/// Paths of a netlist along which an automaton may be met, longer and longer ones. Contracts see the netlist.
pub struct Prefixes<'a> {
    plan: Plan<'a>,
    // None where nothing more is told.
    path: Option<Path>,
}

impl<'a> Model for Prefixes<'a> {
    ghost use Rattle.netlist.specs.Design.{Design};
    ghost use Rattle.prover_bmc.specs.Fields.{netlist_of, IsKept};

    ghost Value = { Design };

    ghost view = { netlist_of };

    ghost invariant = { IsKept };
}

// Written out, so that a caller's proof sees one call where a value is dropped.
impl Drop for Prefixes<'_> {
    fn drop(self) {
        let Prefixes { plan: _, path: _ } = self;
    }
}

impl<'a> Prefixes<'a> {
    /// No valuation yet.
    ///
    /// # Errors
    ///
    /// `NoMemory` if memory is refused.
    pub fn new(
        alloc: Global,
        netlist: &'a Netlist,
        automaton: &'a Alternating,
    ) -> Result<Prefixes<'a>, NoMemory>
        requires { TestsSignals netlist.now automaton.now }
        ensures netlist { IfOk result (λ prefixes. prefixes ≡ netlist.now) }
    {
        let plan = Plan::new(alloc, netlist, automaton)?;
        let path = match Path::new(alloc, &plan) {
            Ok(path) => Some(path),
            Err(CnfFault::TooLarge) => None,
            Err(CnfFault::NoMemory) => return Err(NoMemory),
        };
        Ok(Prefixes { plan, path })
    }

    /// Takes one valuation more, and asks for a path of so many, with at most so many conflicts. After `Nothing`, and
    /// after an error, it tells nothing more.
    ///
    /// # Errors
    ///
    /// `NoMemory` if memory is refused.
    pub fn ask(&mut self, alloc: Global, steps: u64) -> Result<Told, NoMemory>
        ensures netlist { self.new ≡ self.old }
        ensures hint { IfOk result (IsHint self.old) }
    {
        let Some(mut path) = self.path.take() else {
            return Ok(Told::Nothing);
        };
        match path.ask(alloc, &self.plan, steps) {
            Ok(Told::Nothing) | Err(CnfFault::TooLarge) => Ok(Told::Nothing),
            Ok(told) => {
                self.path = Some(path);
                Ok(told)
            }
            Err(CnfFault::NoMemory) => Err(NoMemory),
        }
    }
}
