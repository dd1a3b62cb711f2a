// What holds of the bits of each joint state.
ghost use Rattle.std.specs.Prelude.{suc, ◌<◌, ◌≤◌};
ghost use Rattle.gates_theory.specs.Terms.Term.{Literal};
ghost use Rattle.joint_theory.specs.Bits.{count_bit, count_of};
ghost use Rattle.joint_theory.specs.Relation as spec;
ghost use Rattle.joint_theory.specs.Sliced.{own_terms};
ghost use Rattle.run_gates.specs.Building.{BuildsAll};
ghost use Rattle.run_terms.specs.Positions.{earlier, had};
ghost use Rattle.run_terms.specs.Tables.{guarded};

use crate::each::{Asking, add_each};
use crate::literals::add_implied;
use crate::product::Product;
use clauses::CnfFault;
use run_gates::{Builder, Held, add_tables, add_tables_before, negated, netlist_law};

// A bit of the valuation before is 1 only where there is one.
#[derive(Clone, Copy)]
struct Earlier<'a> {
    product: Product<'a>,
    base: u32,
}

impl<'a> Asking for Earlier<'a> {
    ghost count = { λ this. this.product.netlist.now.signals };

    ghost allows = { λ this. this.base ≤ this.product.width };

    ghost term = { λ this signal. guarded (earlier this.base signal) (Literal (had this.base)) };

    fn add_asked(&self, gates: &mut Builder, number: u32) -> Result<i32, CnfFault> {
        let position = self.product.position_at(self.base);
        add_implied(gates, position.earlier(number), position.had())
    }
}

// What is pending is owed and not accepting.
#[derive(Clone, Copy)]
struct Pending<'a> {
    product: Product<'a>,
    base: u32,
}

impl<'a> Asking for Pending<'a> {
    ghost count = { λ this. count_of this.product.violation.now };

    ghost allows = { λ this. this.base ≤ this.product.width };

    ghost term = { λ this number. spec.pending_term this.product.netlist.now this.product.violation.now this.base number };

    fn add_asked(&self, gates: &mut Builder, number: u32) -> Result<i32, CnfFault> {
        let (product, base) = (self.product, self.base);
        let pending = product.pending(base, number);
        if product.violation.accepting(number) {
            Ok(negated(pending))
        } else {
            add_implied(gates, pending, product.owed(base, number))
        }
    }
}

// A count that is more than a number is more than the one before it.
#[derive(Clone, Copy)]
struct Unary<'a> {
    product: Product<'a>,
    base: u32,
}

impl<'a> Asking for Unary<'a> {
    ghost count = { λ this. this.product.visits };

    ghost allows = { λ this. this.base ≤ this.product.width };

    ghost term = { λ this number. guarded (count_bit this.product.netlist.now this.product.violation.now this.base (suc number))
        (Literal (count_bit this.product.netlist.now this.product.violation.now this.base number)) };

    fn add_asked(&self, gates: &mut Builder, number: u32) -> Result<i32, CnfFault> {
        let (product, base) = (self.product, self.base);
        add_implied(
            gates,
            product.counted(base, number + 1),
            product.counted(base, number),
        )
    }
}

/// The bits behind so many variables are those of a joint state.
pub(crate) fn add_state(
    gates: &mut Builder,
    held: &mut Held,
    product: Product<'_>,
    base: u32,
) -> Result<(), CnfFault>
    requires { base ≤ product.width }
    ensures { BuildsAll gates.old gates.new held.old held.new
        (spec.state_terms product.entry.netlist.now product.entry.violation.now product.entry.visits base) result }
{
    let (netlist, position) = (product.netlist, product.position_at(base));
    netlist_law(netlist);
    add_tables(gates, held, position, netlist.tables().as_slice())?;
    add_tables_before(gates, held, position, netlist.tables().as_slice())?;
    add_each(gates, held, &Earlier { product, base }, netlist.signals())?;
    add_each(
        gates,
        held,
        &Pending { product, base },
        product.obligations(),
    )?;
    add_each(gates, held, &Unary { product, base }, product.visits)
}

/// What of a joint state hangs on the automaton alone, where its bits follow so many variables.
pub(crate) fn add_own(
    gates: &mut Builder,
    held: &mut Held,
    product: Product<'_>,
    base: u32,
) -> Result<(), CnfFault>
    requires { base ≤ product.width }
    ensures { BuildsAll gates.old gates.new held.old held.new
        (own_terms product.entry.netlist.now product.entry.violation.now product.entry.visits base) result }
{
    add_each(
        gates,
        held,
        &Pending { product, base },
        product.obligations(),
    )?;
    add_each(gates, held, &Unary { product, base }, product.visits)
}
