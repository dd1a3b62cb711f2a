// The formula of a search.
ghost use Rattle.std.specs.Prelude.{◌≡◌, ◌↔◌, ◌*◌, ◌++◌, ◌<◌, ◌≤◌, suc, filter, length, All, IfErr, IfOk, OnOk};
ghost use Rattle.clauses.specs.declared.flat.CnfFault.{CnfFault};
ghost use Rattle.clauses.specs.declared.flat.TheConstants.{MOST_VARIABLES, MOST_WORDS};
ghost use Rattle.clauses.specs.Literals.{clause_words};
ghost use Rattle.gates_builder.specs.Adding.{with_nodes, AreLiterals};
ghost use Rattle.gates_nodes.specs.Nodes.{variables_of};
ghost use Rattle.gates_theory.specs.Sizes.{IsTooLarge};
ghost use Rattle.netlist.specs.Design.{free_of};
ghost use Rattle.netlist.specs.Valuations.{bit};
ghost use Rattle.run_terms.specs.Automata.{TestsSignals};
ghost use Rattle.run_terms.specs.Formulas.{HasModel};
ghost use Rattle.run_terms.specs.Sizes.{formula_bulk as search_bulk};
ghost use Rattle.bounded_theory.specs.Found.{SomeFound};
ghost use Rattle.bounded.specs.Adding.{fronts_in};
ghost use Rattle.bounded.specs.Framing.{IsPlaced};
ghost use Rattle.bounded.specs.Places.{place_nodes};
ghost use Rattle.bounded.specs.Searches as spec;
ghost use Rattle.bounded.specs.Searches.{asked_of, search_clauses, search_variables};

use crate::beginning::add_first;
use crate::closing::add_closings;
use crate::counting::{bits_of, number_width, starts_of};
use crate::facts::{automaton_law, formula_is_few, obligations_are_few};
use crate::framing::{Framed, Frames, search_frames};
use crate::free::{free_signals, kept_of};
use crate::obligations::add_obligations;
use crate::places::Places;
use crate::placing::add_places;
use alternating::Alternating;
use clauses::{Clauses, Cnf, CnfFault, MOST_VARIABLES};
use gates_builder::{Builder, negated};
use gates_formula::formula;
use gates_theory::Literals;
use netlist::{Netlist, Signals, soundness_law};
use psl_base::{Bits, NoMemory};
use std::alloc::Global;

// The bits of places behind the nodes that there are, and where they stand.
fn placed<'a>(
    alloc: Global,
    builder: &mut Builder,
    violation: &'a Alternating,
    n: u32,
) -> Result<Places<'a>, CnfFault>
    requires given { builder.old.given ≡ 0 }
    requires few { n < MOST_VARIABLES }
    ensures automaton { IfOk result (λ places. places.automaton.now ≡ violation.now) }
    ensures last { IfOk result (λ places. places.last ≡ n) }
    ensures before { IfOk result (λ places. places.before ≡ variables_of 0 builder.old.nodes) }
    ensures builder { OnOk result
        (builder.new ≡ with_nodes builder.old (builder.old.nodes ++ place_nodes violation.now n)) }
    ensures large { IfErr result (λ fault. fault ≡ CnfFault.TooLarge
        → MOST_VARIABLES < variables_of 0 (builder.old.nodes ++ place_nodes violation.now n)) }
{
    let digits = number_width(violation.len());
    let bits = bits_of(violation, digits);
    if bits > u64::from(MOST_VARIABLES) {
        return Err(CnfFault::TooLarge);
    }
    let (before, bits) = (builder.variables(), bits as u32);
    add_places(builder, bits, n)?;
    let starts = starts_of(alloc, violation, digits)?;
    let _few = builder.variables();
    Ok(Places {
        automaton: violation,
        last: n,
        before,
        bits,
        digits,
        starts,
    })
}

// The inputs and the outputs of latches that are in the cone.
fn free_in(alloc: Global, netlist: &Netlist, cone: &Bits) -> Result<Signals, NoMemory>
    requires { length cone.now ≡ netlist.now.signals }
    ensures is { IfOk result (λ signals. signals ≡ filter (bit cone.now) (free_of netlist.now)) }
    ensures within { IfOk result (All (λ signal. signal < netlist.now.signals)) }
{
    soundness_law(netlist);
    let free = free_signals(alloc, netlist)?;
    kept_of(alloc, free.as_slice(), cone.as_slice())
}

// How a run begins, and what closes its loop.
fn front_clauses(
    alloc: Global,
    places: &Places<'_>,
    signals: &[u32],
    frames: &[Literals],
) -> Result<Clauses, CnfFault>
    requires size { length frames.now ≡ suc places.now.last }
    requires frames { All AreLiterals frames.now }
    requires within { All (λ literals. All (λ signal. signal < length literals) signals.now) frames.now }
    ensures clauses { IfOk result (λ clauses. clauses ≡ fronts_in places.now.automaton.now frames.now signals.now
        places.now.last places.now.before) }
    ensures large { IfErr result (λ fault. fault ≡ CnfFault.TooLarge → MOST_WORDS
        < clause_words (fronts_in places.now.automaton.now frames.now signals.now places.now.last places.now.before)) }
{
    let mut clauses = Clauses::new(alloc);
    add_first(alloc, &mut clauses, places)?;
    add_closings(&mut clauses, places, signals, frames)?;
    Ok(clauses)
}

// The clauses beside those of nodes, behind the bits of places.
fn asked_clauses(
    alloc: Global,
    builder: &mut Builder,
    netlist: &Netlist,
    places: &Places<'_>,
    frames: &Frames,
    cone: &Bits,
) -> Result<Clauses, CnfFault>
    requires tests { TestsSignals netlist.now places.now.automaton.now }
    requires placed { IsPlaced netlist.now places.now builder.old frames.now cone.now }
    ensures builder { OnOk result (builder.new
        ≡ with_nodes builder.old (asked_of netlist.now places.now.automaton.now places.now.last).nodes) }
    ensures clauses { IfOk result (λ clauses. clauses
        ≡ spec.asked_clauses netlist.now places.now.automaton.now places.now.last) }
    ensures large { IfErr result (λ fault. fault ≡ CnfFault.TooLarge
        → IsTooLarge (search_variables netlist.now places.now.automaton.now places.now.last)
        (search_clauses netlist.now places.now.automaton.now places.now.last)) }
{
    soundness_law(netlist);
    automaton_law(places.automaton);
    let signals = free_in(alloc, netlist, cone)?;
    let frames = frames.as_slice();
    let mut clauses = front_clauses(alloc, places, signals.as_slice(), frames)?;
    add_obligations(builder, &mut clauses, places, frames)?;
    Ok(clauses)
}

/// The formula of a search, and an order in which it is likely to be decided soon.
#[derive(Drop)]
pub struct OrderedFormula {
    pub formula: Cnf,
    /// Literals to be decided before all others, in this order. Nothing is promised of them.
    pub first: Literals,
}

// That nothing is owed at a place, from the first places on. Where all that is owed behind a place is denied, what is owed
// at it has to be met there, so valuations are asked for one after the other, as where the formula grows by one of them (Een
// and Sorensson, Temporal induction by incremental SAT solving, 2003).
fn first_literals(alloc: Global, places: &Places<'_>) -> Result<Literals, NoMemory> {
    let mut literals = Literals::new(alloc);
    for place in 1..=places.last {
        for number in 0..places.automaton.len() {
            literals.push(negated(places.owed(place, number as u32)))?;
        }
    }
    Ok(literals)
}

/// The formula that has a model exactly where some run of so many valuations has a word that the automaton accepts.
///
/// # Errors
///
/// `TooLarge` only where there would be too many variables or words, and `NoMemory` if memory is refused.
pub fn ordered_search(
    alloc: Global,
    netlist: &Netlist,
    violation: &Alternating,
    n: u32,
) -> Result<OrderedFormula, CnfFault>
    requires tests { TestsSignals netlist.now violation.now }
    ensures variables { IfOk result (λ ordered. ordered.formula.variables ≡ search_variables netlist.now violation.now n) }
    ensures clauses { IfOk result (λ ordered. ordered.formula.clauses ≡ search_clauses netlist.now violation.now n) }
    ensures models { IfOk result (λ ordered. HasModel ordered.formula.variables ordered.formula.clauses ↔ SomeFound netlist.now violation.now n) }
    ensures fits { IfOk result (λ ordered. IsTooLarge (search_variables netlist.now violation.now n)
        (search_clauses netlist.now violation.now n) → ⊥) }
    ensures words { IfOk result (λ ordered. clause_words ordered.formula.clauses ≤ 1000 * suc n * suc n * search_bulk netlist.now violation.now) }
    ensures few { IfOk result (λ ordered. ordered.formula.variables ≤ 1000 * suc n * suc n * search_bulk netlist.now violation.now) }
    ensures large { IfErr result (λ fault. fault ≡ CnfFault.TooLarge
        → IsTooLarge (search_variables netlist.now violation.now n) (search_clauses netlist.now violation.now n)) }
{
    soundness_law(netlist);
    automaton_law(violation);
    obligations_are_few(violation);
    let Framed {
        mut builder,
        frames,
        cone,
    } = search_frames(alloc, netlist, violation, n)?;
    let places = placed(alloc, &mut builder, violation, n)?;
    let clauses = asked_clauses(alloc, &mut builder, netlist, &places, &frames, &cone)?;
    let cnf = formula(alloc, &builder, &clauses)?;
    formula_is_few(&cnf);
    let first = first_literals(alloc, &places)?;
    Ok(OrderedFormula {
        formula: cnf,
        first,
    })
}

/// The formula that has a model exactly where some run of so many valuations has a word that the automaton accepts.
///
/// # Errors
///
/// `TooLarge` only where there would be too many variables or words, and `NoMemory` if memory is refused.
pub fn search_formula(
    alloc: Global,
    netlist: &Netlist,
    violation: &Alternating,
    n: u32,
) -> Result<Cnf, CnfFault>
    requires tests { TestsSignals netlist.now violation.now }
    ensures variables { IfOk result (λ cnf. cnf.variables ≡ search_variables netlist.now violation.now n) }
    ensures clauses { IfOk result (λ cnf. cnf.clauses ≡ search_clauses netlist.now violation.now n) }
    ensures models { IfOk result (λ cnf. HasModel cnf.variables cnf.clauses ↔ SomeFound netlist.now violation.now n) }
    ensures fits { IfOk result (λ cnf. IsTooLarge (search_variables netlist.now violation.now n)
        (search_clauses netlist.now violation.now n) → ⊥) }
    ensures words { IfOk result (λ cnf. clause_words cnf.clauses ≤ 1000 * suc n * suc n * search_bulk netlist.now violation.now) }
    ensures few { IfOk result (λ cnf. cnf.variables ≤ 1000 * suc n * suc n * search_bulk netlist.now violation.now) }
    ensures large { IfErr result (λ fault. fault ≡ CnfFault.TooLarge
        → IsTooLarge (search_variables netlist.now violation.now n) (search_clauses netlist.now violation.now n)) }
{
    let ordered = ordered_search(alloc, netlist, violation, n)?;
    Ok(ordered.formula)
}
