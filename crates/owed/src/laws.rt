//! What holds of all texts and directives.
ghost use Rattle.owed.specs.Laws.{Owes};
ghost use Rattle.owed.specs.Violations.{AcceptsViolatingRuns};

use netlist::Netlist;
use psl_tree::{Directive, Unit};

/// On a word without the letters Top and Bottom, as those of runs and recordings are, what is owed is satisfied exactly
/// where the directive's claim holds, if all assumptions are satisfied: an assertion claims its formula, and a cover that
/// its own is not satisfied.
pub fn owes(unit: &Unit, directive: &Directive)
    ensures { Owes unit.now directive.now }
{}

/// The automaton of the violations accepts the words of just those runs of a netlist that do not satisfy what is owed.
pub fn violating_runs(netlist: &Netlist, unit: &Unit, directive: &Directive)
    ensures { AcceptsViolatingRuns netlist.now unit.now directive.now }
{}
