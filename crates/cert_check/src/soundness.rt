// What holds of what is claimed.
ghost use Rattle.std.specs.Prelude.{ℕ, List};
ghost use Rattle.cert_theory.specs.Shown.{IsShown};
ghost use Rattle.cert_theory.specs.declared.header.Asked.{Asked};
ghost use Rattle.owed.specs.Violations.{violation_of};
ghost use Rattle.run_terms.specs.Automata.{IsSound, TestsSignals};
ghost use Rattle.cert_check.specs.Claims.{EachSatisfies, queries_for};

use crate::claim::Claim;
use joint_theory::{inductive_law, query_law, reach_law, size_law};
use netlist::soundness_law;
use owed::violating_runs;

/// Where some text of a certificate shows a claim, by both formulas of its window or by the three of its clauses, it holds.
pub(crate) fn claim_holds(claim: Claim<'_>)
    requires sound { IsSound (violation_of claim.unit.now claim.directive.now) }
    requires tests { TestsSignals claim.netlist.now (violation_of claim.unit.now claim.directive.now) }
    ensures { (asked : Asked) (text : List ℕ) → IsShown asked (queries_for claim.entry.netlist.now (violation_of claim.entry.unit.now claim.entry.directive.now)) text
        → EachSatisfies claim.entry.netlist.now claim.entry.unit.now claim.entry.directive.now }
{
    soundness_law(claim.netlist);
    query_law();
    size_law();
    reach_law();
    inductive_law();
    violating_runs(claim.netlist, claim.unit, claim.directive);
}
