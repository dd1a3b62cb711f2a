// The formula of two neighbours over a slice of the signals.
ghost use Rattle.std.specs.Prelude.{◌≡◌, ◌+◌, ◌<◌, ◌≤◌, ◌++◌, [], ◌∷◌, length, IfOk, IfErr};
ghost use Rattle.alternating_theory.specs.Atoms.{AtomsOfObligations};
ghost use Rattle.gates_theory.specs.Relations as relations;
ghost use Rattle.gates_theory.specs.Sizes.{IsTooLarge};
ghost use Rattle.gates_theory.specs.Terms.Term.{Literal};
ghost use Rattle.clauses.specs.declared.flat.CnfFault.{CnfFault};
ghost use Rattle.clauses.specs.declared.flat.TheConstants.{MOST_VARIABLES};
ghost use Rattle.joint_theory.specs.Sliced as spec;
ghost use Rattle.joint_theory.specs.Sliced.{kept_by, sliced_variables};
ghost use Rattle.run_gates.specs.Building.{BuildsAll};
ghost use Rattle.run_terms.specs.Automata.{TestsSignals};
ghost use Rattle.run_terms.specs.Formulas.{whole};
ghost use Rattle.run_terms.specs.Positions.{had};

use crate::joined::Joint;
use crate::kept::{
    add_kept_before, add_kept_earlier, add_kept_latches, add_kept_shift, add_kept_tables,
};
use crate::one_position::without_next;
use crate::product::Product;
use crate::slice::Slice;
use crate::state::add_own;
use crate::step::{add_asked_terms, add_breakpoint};
use crate::support::add_support;
use clauses::{Cnf, CnfFault};
use gates_theory::Circuit;
use netlist::soundness_law;
use run_formulas::held_to;
use run_gates::{Builder, Held, automaton_law};
use std::alloc::Global;

/// The bits are those of a state, as far as the slice goes.
fn add_first(
    gates: &mut Builder,
    held: &mut Held,
    product: Product<'_>,
    slice: &Slice,
) -> Result<(), CnfFault>
    ensures { BuildsAll gates.old gates.new held.old held.new
        (spec.sliced_first product.entry.netlist.now product.entry.violation.now product.entry.visits
        (kept_by slice.entry.now.now) (kept_by slice.entry.now.before)) result }
{
    add_kept_tables(gates, held, product, 0, &slice.now)?;
    add_kept_before(gates, held, product, &slice.before)?;
    add_kept_earlier(gates, held, product, 0, &slice.before)?;
    add_own(gates, held, product, 0)
}

/// The bits behind them are those of the next state, as far as the slice goes.
fn add_next(
    gates: &mut Builder,
    held: &mut Held,
    product: Product<'_>,
    slice: &Slice,
) -> Result<(), CnfFault>
    ensures { BuildsAll gates.old gates.new held.old held.new
        (spec.sliced_next product.entry.netlist.now product.entry.violation.now product.entry.visits product.entry.width
        (kept_by slice.entry.now.now) (kept_by slice.entry.now.before)) result }
{
    let width = product.width;
    add_kept_tables(gates, held, product, width, &slice.now)?;
    add_kept_earlier(gates, held, product, width, &slice.before)?;
    add_own(gates, held, product, width)
}

/// There is a valuation before the next state.
fn add_had(gates: &mut Builder, held: &mut Held, product: Product<'_>) -> Result<(), CnfFault>
    ensures { BuildsAll gates.old gates.new held.old held.new (Literal (had product.entry.width) ∷ []) result }
{
    held.hold(gates, product.position_at(product.width).had())
}

/// The next valuation follows, as far as the slice goes.
fn add_sliced_moves(
    gates: &mut Builder,
    held: &mut Held,
    product: Product<'_>,
    slice: &Slice,
) -> Result<(), CnfFault>
    ensures { BuildsAll gates.old gates.new held.old held.new
        (spec.sliced_moves product.entry.netlist.now product.entry.width
        (kept_by slice.entry.now.now) (kept_by slice.entry.now.before)) result }
{
    add_had(gates, held, product)?;
    add_kept_shift(gates, held, product, &slice.before)?;
    add_kept_latches(gates, held, product, &slice.now)
}

/// The next state may follow the first, as far as the slice goes.
fn add_sliced_step(
    alloc: Global,
    gates: &mut Builder,
    held: &mut Held,
    product: Product<'_>,
    slice: &Slice,
) -> Result<(), CnfFault>
    requires { AtomsOfObligations (λ atom. atom.signal < product.netlist.now.signals) product.violation.now.obligations }
    ensures { BuildsAll gates.old gates.new held.old held.new
        (spec.sliced_step product.entry.netlist.now product.entry.violation.now product.entry.visits product.entry.width
        (kept_by slice.entry.now.now) (kept_by slice.entry.now.before)) result }
{
    add_sliced_moves(gates, held, product, slice)?;
    add_asked_terms(gates, held, product)?;
    add_breakpoint(alloc, gates, held, product)?;
    add_support(alloc, gates, held, product)
}

/// The bits are those of two states of which the second may follow the first, as far as the slice goes.
fn add_sliced_pair(
    alloc: Global,
    gates: &mut Builder,
    held: &mut Held,
    product: Product<'_>,
    slice: &Slice,
) -> Result<(), CnfFault>
    requires { AtomsOfObligations (λ atom. atom.signal < product.netlist.now.signals) product.violation.now.obligations }
    ensures { BuildsAll gates.old gates.new held.old held.new
        (spec.sliced_first product.entry.netlist.now product.entry.violation.now product.entry.visits
        (kept_by slice.entry.now.now) (kept_by slice.entry.now.before)
        ++ spec.sliced_next product.entry.netlist.now product.entry.violation.now product.entry.visits product.entry.width
        (kept_by slice.entry.now.now) (kept_by slice.entry.now.before)
        ++ spec.sliced_step product.entry.netlist.now product.entry.violation.now product.entry.visits product.entry.width
        (kept_by slice.entry.now.now) (kept_by slice.entry.now.before)) result }
{
    add_first(gates, held, product, slice)?;
    add_next(gates, held, product, slice)?;
    add_sliced_step(alloc, gates, held, product, slice)
}

/// The circuit of two neighbours, as far as the slice goes.
fn sliced_circuit(alloc: Global, product: Product<'_>, slice: &Slice) -> Result<Circuit, CnfFault>
    requires { AtomsOfObligations (λ atom. atom.signal < product.netlist.now.signals) product.violation.now.obligations }
    ensures is { IfOk result (λ circuit. circuit ≡ relations.circuit_of
        (spec.sliced_pair product.entry.netlist.now product.entry.violation.now product.entry.visits
        (kept_by slice.entry.now.now) (kept_by slice.entry.now.before))) }
    ensures few { IfOk result (λ circuit. length circuit.gates ≤ MOST_VARIABLES) }
    ensures large { IfErr result (λ fault. fault ≡ CnfFault.TooLarge → MOST_VARIABLES
        < sliced_variables product.entry.netlist.now product.entry.violation.now product.entry.visits
        (kept_by slice.entry.now.now) (kept_by slice.entry.now.before)) }
{
    let width = product.width;
    let mut gates = Builder::new(alloc);
    let mut held = Held::new(alloc);
    gates.free(width + width + 1)?;
    add_sliced_pair(alloc, &mut gates, &mut held, product, slice)?;
    Ok(without_next(alloc, gates, held))
}

/// The formula of two neighbours, as far as the slice goes.
fn sliced_formula(alloc: Global, product: Product<'_>, slice: &Slice) -> Result<Cnf, CnfFault>
    requires tests { TestsSignals product.netlist.now product.violation.now }
    ensures variables { IfOk result (λ cnf. cnf.variables
        ≡ sliced_variables product.entry.netlist.now product.entry.violation.now product.entry.visits
        (kept_by slice.entry.now.now) (kept_by slice.entry.now.before)) }
    ensures clauses { IfOk result (λ cnf. cnf.clauses
        ≡ whole (spec.sliced_pair product.entry.netlist.now product.entry.violation.now product.entry.visits
        (kept_by slice.entry.now.now) (kept_by slice.entry.now.before)) 0) }
    ensures large { IfErr result (λ fault. fault ≡ CnfFault.TooLarge → IsTooLarge
        (sliced_variables product.entry.netlist.now product.entry.violation.now product.entry.visits
        (kept_by slice.entry.now.now) (kept_by slice.entry.now.before))
        (whole (spec.sliced_pair product.entry.netlist.now product.entry.violation.now product.entry.visits
        (kept_by slice.entry.now.now) (kept_by slice.entry.now.before)) 0)) }
{
    soundness_law(product.netlist);
    automaton_law(product.violation);
    let circuit = sliced_circuit(alloc, product, slice)?;
    held_to(alloc, &circuit, 0)
}

impl<'a> Joint<'a> {
    /// The formula of a state and a neighbour over a slice of the signals: of what the netlist says only that which drives
    /// kept signals, and all that the automaton asks. Its first variables are the bits of the state, and as many behind
    /// them those of the neighbour. Each pair of neighbours has a model with its bits, and there may be further models.
    ///
    /// # Errors
    ///
    /// `TooLarge` only where there would be too many variables or words, and `NoMemory` if memory is refused.
    pub fn sliced_pair(&self, alloc: Global, slice: &Slice) -> Result<Cnf, CnfFault>
        ensures variables { IfOk result (λ cnf. cnf.variables
            ≡ sliced_variables self.now.design self.now.automaton self.now.visits
            (kept_by slice.entry.now.now) (kept_by slice.entry.now.before)) }
        ensures clauses { IfOk result (λ cnf. cnf.clauses
            ≡ whole (spec.sliced_pair self.now.design self.now.automaton self.now.visits
            (kept_by slice.entry.now.now) (kept_by slice.entry.now.before)) 0) }
        ensures large { IfErr result (λ fault. fault ≡ CnfFault.TooLarge → IsTooLarge
            (sliced_variables self.now.design self.now.automaton self.now.visits
            (kept_by slice.entry.now.now) (kept_by slice.entry.now.before))
            (whole (spec.sliced_pair self.now.design self.now.automaton self.now.visits
            (kept_by slice.entry.now.now) (kept_by slice.entry.now.before)) 0)) }
    {
        sliced_formula(alloc, self.product, slice)
    }
}
