// What a slice of the signals keeps of the netlist's terms.
ghost use Rattle.std.specs.Prelude.{◌≡◌, ◌+◌, ◌<◌, ◌≤◌, ⊤, length, map, slice_get, All};
ghost use Rattle.gates_theory.specs.Terms.{Term};
ghost use Rattle.joint.specs.Kept.{kept_term, terms_of};
ghost use Rattle.joint_theory.specs.Sliced as spec;
ghost use Rattle.joint_theory.specs.Sliced.{earlier_term, kept_by, kept_latches, kept_signals, kept_tables, shift_term};
ghost use Rattle.run_gates.specs.Building.{BuildsAll};
ghost use Rattle.run_gates.specs.Marks.{IsSoundLatch, IsSoundTable};
ghost use Rattle.run_terms.specs.Moves.{latch_term};
ghost use Rattle.run_terms.specs.Positions.{current, earlier, had};
ghost use Rattle.run_terms.specs.Tables.{before_terms, guarded, table_term, valuation_terms};

use crate::keeping::{Keeping, add_all_kept, hold_implied, hold_same, is_kept};
use crate::product::Product;
use clauses::CnfFault;
use psl_base::Bits;
use run_gates::{Builder, Held, add_tables, add_tables_before, netlist_law};
use std::slice;

// The tables of kept signals agree with the valuation, where the state's bits follow so many variables.
#[derive(Clone, Copy)]
struct KeptTables<'a> {
    product: Product<'a>,
    base: u32,
    kept: &'a Bits,
}

impl<'a> Keeping for KeptTables<'a> {
    ghost count = { λ this. length this.product.netlist.now.tables };

    ghost terms = { λ this number. terms_of (kept_term (λ table. kept_by this.kept.now table.output)
        (table_term (current this.product.netlist.now.signals this.base))) (slice_get this.product.netlist.now.tables number) };

    ghost allows = { λ this. (this.base ≤ this.product.width)
        × All (IsSoundTable this.product.netlist.now.signals) this.product.netlist.now.tables };

    fn add_kept(
        &self,
        gates: &mut Builder,
        held: &mut Held,
        number: usize,
    ) -> Result<(), CnfFault> {
        let product = self.product;
        let table = product.netlist.tables().at(number);
        if is_kept(self.kept, table.output) {
            let position = product.position_at(self.base);
            add_tables(gates, held, position, slice::from_ref(table))
        } else {
            Ok(())
        }
    }
}

// The tables of signals that are kept before agree with the valuation before the first state, if there is one.
#[derive(Clone, Copy)]
struct KeptBefore<'a> {
    product: Product<'a>,
    kept: &'a Bits,
}

impl<'a> Keeping for KeptBefore<'a> {
    ghost count = { λ this. length this.product.netlist.now.tables };

    ghost terms = { λ this number. terms_of (kept_term (λ table. kept_by this.kept.now table.output)
        (λ table. guarded (had 0) (table_term (earlier 0) table))) (slice_get this.product.netlist.now.tables number) };

    ghost allows = { λ this. All (IsSoundTable this.product.netlist.now.signals) this.product.netlist.now.tables };

    fn add_kept(
        &self,
        gates: &mut Builder,
        held: &mut Held,
        number: usize,
    ) -> Result<(), CnfFault> {
        let product = self.product;
        let table = product.netlist.tables().at(number);
        if is_kept(self.kept, table.output) {
            add_tables_before(gates, held, product.position(), slice::from_ref(table))
        } else {
            Ok(())
        }
    }
}

// A bit of the valuation before is 1 only where there is one, where the signal is kept before.
#[derive(Clone, Copy)]
struct KeptEarlier<'a> {
    product: Product<'a>,
    base: u32,
    kept: &'a Bits,
}

impl<'a> Keeping for KeptEarlier<'a> {
    ghost count = { λ this. this.product.netlist.now.signals };

    ghost terms = { λ this signal. kept_term (kept_by this.kept.now) (earlier_term this.base) signal };

    ghost allows = { λ this. this.base ≤ this.product.width };

    fn add_kept(
        &self,
        gates: &mut Builder,
        held: &mut Held,
        number: usize,
    ) -> Result<(), CnfFault> {
        let signal = number as u32;
        if is_kept(self.kept, signal) {
            let position = self.product.position_at(self.base);
            hold_implied(gates, held, position.earlier(signal), position.had())
        } else {
            Ok(())
        }
    }
}

// The value before of a signal that is kept before is the one that it has in the first state.
#[derive(Clone, Copy)]
struct KeptShift<'a> {
    product: Product<'a>,
    kept: &'a Bits,
}

impl<'a> Keeping for KeptShift<'a> {
    ghost count = { λ this. this.product.netlist.now.signals };

    ghost terms = { λ this signal. kept_term (kept_by this.kept.now)
        (shift_term this.product.netlist.now this.product.width) signal };

    ghost allows = { λ this. ⊤ };

    fn add_kept(
        &self,
        gates: &mut Builder,
        held: &mut Held,
        number: usize,
    ) -> Result<(), CnfFault> {
        let (product, signal) = (self.product, number as u32);
        if is_kept(self.kept, signal) {
            let next = product.position_at(product.width);
            hold_same(
                gates,
                held,
                next.earlier(signal),
                product.position().current(signal),
            )
        } else {
            Ok(())
        }
    }
}

// The output of a latch that is kept has in the next state the value that its input has in the first.
#[derive(Clone, Copy)]
struct KeptLatches<'a> {
    product: Product<'a>,
    kept: &'a Bits,
}

impl<'a> Keeping for KeptLatches<'a> {
    ghost count = { λ this. length this.product.netlist.now.latches };

    ghost terms = { λ this number. terms_of (kept_term (λ latch. kept_by this.kept.now latch.output)
        (latch_term this.product.netlist.now.signals 0 this.product.width)) (slice_get this.product.netlist.now.latches number) };

    ghost allows = { λ this. All (IsSoundLatch this.product.netlist.now.signals) this.product.netlist.now.latches };

    fn add_kept(
        &self,
        gates: &mut Builder,
        held: &mut Held,
        number: usize,
    ) -> Result<(), CnfFault> {
        let product = self.product;
        let latch = product.netlist.latches().at(number);
        if is_kept(self.kept, latch.output) {
            let (now, next) = (product.position(), product.position_at(product.width));
            hold_same(
                gates,
                held,
                next.current(latch.output),
                now.current(latch.input),
            )
        } else {
            Ok(())
        }
    }
}

/// The tables of kept signals agree with the valuation, where the state's bits follow so many variables.
pub(crate) fn add_kept_tables(
    gates: &mut Builder,
    held: &mut Held,
    product: Product<'_>,
    base: u32,
    kept: &Bits,
) -> Result<(), CnfFault>
    requires { base ≤ product.width }
    ensures { BuildsAll gates.old gates.new held.old held.new (valuation_terms product.entry.netlist.now.signals base
        (kept_tables product.entry.netlist.now (kept_by kept.now))) result }
{
    let netlist = product.netlist;
    netlist_law(netlist);
    let keeping = KeptTables {
        product,
        base,
        kept,
    };
    add_all_kept(gates, held, &keeping, netlist.tables().len())
}

/// The tables of signals that are kept before agree with the valuation before the first state, if there is one.
pub(crate) fn add_kept_before(
    gates: &mut Builder,
    held: &mut Held,
    product: Product<'_>,
    kept: &Bits,
) -> Result<(), CnfFault>
    ensures { BuildsAll gates.old gates.new held.old held.new
        (before_terms 0 (kept_tables product.entry.netlist.now (kept_by kept.now))) result }
{
    let netlist = product.netlist;
    netlist_law(netlist);
    let keeping = KeptBefore { product, kept };
    add_all_kept(gates, held, &keeping, netlist.tables().len())
}

/// A bit of the valuation before is 1 only where there is one, for each signal that is kept before.
pub(crate) fn add_kept_earlier(
    gates: &mut Builder,
    held: &mut Held,
    product: Product<'_>,
    base: u32,
    kept: &Bits,
) -> Result<(), CnfFault>
    requires { base ≤ product.width }
    ensures { BuildsAll gates.old gates.new held.old held.new
        (map (earlier_term base) (kept_signals product.entry.netlist.now (kept_by kept.now))) result }
{
    let signals = product.netlist.signals() as usize;
    add_all_kept(
        gates,
        held,
        &KeptEarlier {
            product,
            base,
            kept,
        },
        signals,
    )
}

/// The value before of each signal that is kept before is the one that it has in the first state.
pub(crate) fn add_kept_shift(
    gates: &mut Builder,
    held: &mut Held,
    product: Product<'_>,
    kept: &Bits,
) -> Result<(), CnfFault>
    ensures { BuildsAll gates.old gates.new held.old held.new (map (shift_term product.entry.netlist.now product.entry.width)
        (kept_signals product.entry.netlist.now (kept_by kept.now))) result }
{
    let signals = product.netlist.signals() as usize;
    add_all_kept(gates, held, &KeptShift { product, kept }, signals)
}

/// The output of each latch that is kept has in the next state the value that its input has in the first.
pub(crate) fn add_kept_latches(
    gates: &mut Builder,
    held: &mut Held,
    product: Product<'_>,
    kept: &Bits,
) -> Result<(), CnfFault>
    ensures { BuildsAll gates.old gates.new held.old held.new
        (map (latch_term product.entry.netlist.now.signals 0 product.entry.width)
        (kept_latches product.entry.netlist.now (kept_by kept.now))) result }
{
    let netlist = product.netlist;
    netlist_law(netlist);
    let keeping = KeptLatches { product, kept };
    add_all_kept(gates, held, &keeping, netlist.latches().len())
}
