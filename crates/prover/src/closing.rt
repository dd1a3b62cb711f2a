// Whether a window is closed: no joint path is open there, of either kind.
ghost use Rattle.std.specs.Prelude.{◌≡◌, ◌↔◌, IfOk, IfErr};
ghost use Rattle.gates_theory.specs.Sizes.{IsTooLarge};
ghost use Rattle.clauses.specs.declared.flat.CnfFault.{CnfFault};
ghost use Rattle.joint_theory.specs.Paths.{SomeOpen};
ghost use Rattle.joint_theory.specs.Queries.{query, query_variables};
ghost use Rattle.prover.specs.Claims.{IsReady};
ghost use Rattle.prover.specs.Stops.{ComesUpFor, IsLookedAtFor, IsStopOf};
ghost use Rattle.prover.specs.Views.{IsJointOf, IsKindOf, IsPathAt, view_query};
ghost use Rattle.run_terms.specs.Formulas.{HasModel};

use crate::context::Prover;
use crate::finding::{Finding, OpenPath, Query};
use crate::glance::Untold;
use crate::stop::Stop;
use cdcl::{Answer, solve};
use cert_theory::Certificate;
use clauses::{Cnf, CnfFault, Log};
use joint::Joint;
use psl_base::NoMemory;
use std::alloc::Global;

/// The joint paths of a kind at a window: those of the initial kind, or the others.
#[derive(Clone, Copy, Debug)]
pub(crate) struct View {
    pub visits: u32,
    pub window: u32,
    pub initial: bool,
}

/// What is told of the joint paths of a kind at a window.
#[derive(Debug, Drop)]
pub(crate) enum Kind {
    /// This one is open.
    Open(OpenPath),
    /// None is, as the log shows.
    Closed(Log),
    /// Nothing.
    Nothing(Untold),
}

impl View {
    // The query for these paths.
    fn query(self) -> Query
        ensures { result ≡ view_query self }
    {
        if self.initial {
            Query::Base(self.visits, self.window)
        } else {
            Query::Induction(self.visits, self.window)
        }
    }

    // Its formula, over joint states.
    fn formula(self, alloc: Global, joint: &Joint) -> Result<Cnf, CnfFault>
        ensures variables { IfOk result (λ cnf. cnf.variables
            ≡ query_variables joint.now.design joint.now.automaton joint.now.visits self.window self.initial) }
        ensures clauses { IfOk result (λ cnf. cnf.clauses
            ≡ query joint.now.design joint.now.automaton joint.now.visits self.window self.initial) }
        ensures models { IfOk result (λ cnf. HasModel cnf.variables cnf.clauses
            ↔ SomeOpen joint.now.design joint.now.automaton joint.now.visits self.window self.initial) }
        ensures large { IfErr result (λ fault. fault ≡ CnfFault.TooLarge → IsTooLarge
            (query_variables joint.now.design joint.now.automaton joint.now.visits self.window self.initial)
            (query joint.now.design joint.now.automaton joint.now.visits self.window self.initial)) }
    {
        if self.initial {
            joint.base(alloc, self.window)
        } else {
            joint.induction(alloc, self.window)
        }
    }
}

impl Prover<'_> {
    /// An open path of the window for a number of visits. It stops where there is none: then the directive is proved. The
    /// paths of the induction come first: mostly one of them is open, and then the others are not asked for.
    pub fn close_at(
        self,
        alloc: Global,
        joint: &Joint,
        visits: u32,
        window: u32,
    ) -> Result<OpenPath, Stop>
        requires ready { IsReady self }
        requires joint { IsJointOf self.task visits joint.now }
        requires looked_at { IsLookedAtFor self.task visits window }
        ensures path { IfOk result (IsPathAt self.entry.task visits window) }
        ensures stop { IfErr result (IsStopOf self.entry.task) }
    {
        let other = View {
            visits,
            window,
            initial: false,
        };
        let induction = match self.look(alloc, joint, other)? {
            Kind::Open(path) => return Ok(path),
            told => told,
        };
        let first = View {
            visits,
            window,
            initial: true,
        };
        let base = match self.look(alloc, joint, first)? {
            Kind::Open(path) => return Ok(path),
            Kind::Closed(log) => log,
            Kind::Nothing(untold) => return Err(Stop::Found(untold.finding(first.query()))),
        };
        match induction {
            Kind::Open(path) => Ok(path),
            Kind::Closed(induction) => Err(Stop::Found(Finding::Proved(Certificate {
                assertion: self.task.directive.number,
                visits,
                window,
                base,
                induction,
            }))),
            Kind::Nothing(untold) => Err(Stop::Found(untold.finding(other.query()))),
        }
    }

    // What is told of the joint paths of a kind.
    fn look(self, alloc: Global, joint: &Joint, view: View) -> Result<Kind, NoMemory>
        requires ready { IsReady self }
        requires joint { IsJointOf self.task view.visits joint.now }
        ensures { IfOk result (IsKindOf self.entry.task view) }
    {
        let formula = match view.formula(alloc, joint) {
            Ok(formula) => formula,
            Err(CnfFault::TooLarge) => return Ok(Kind::Nothing(Untold::Large)),
            Err(CnfFault::NoMemory) => return Err(NoMemory),
        };
        let _words = formula.clauses.words();
        match solve(alloc, &formula, self.task.options.steps)? {
            Answer::Model(values) => {
                let path = joint.read_path(alloc, view.window, view.initial, &values)?;
                Ok(Kind::Open(OpenPath {
                    visits: view.visits,
                    initial: view.initial,
                    path,
                }))
            }
            Answer::Refuted(log) => Ok(Kind::Closed(log)),
            Answer::Spent(log) => Ok(Kind::Nothing(Untold::Steps(log))),
            Answer::LogFull(log) => Ok(Kind::Nothing(Untold::LogFull(log))),
        }
    }
}
