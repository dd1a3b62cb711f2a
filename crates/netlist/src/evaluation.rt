ghost use Rattle.std.specs.Prelude.{◌≡◌, ◌<◌, Bool as Truth, List, map, length, All};
ghost use Rattle.std.specs.List.{list_any};
ghost use Rattle.netlist.specs.Design.{free_of};
ghost use Rattle.netlist.specs.Filling.{with_values, with_outputs};
ghost use Rattle.netlist.specs.Valuations.{bit, values, fits_mark, fits_row, output_in, IsFilled};

use crate::{Latch, Mark, Netlist, Table};
use psl_base::Bits;

impl Netlist {
    /// Fills a valuation: the signals that no table drives get these values, those of the inputs first and then those
    /// of the latches, each in the order in which they are listed. It takes no memory, and reads each mark at most once.
    pub fn evaluate(&self, free: &Bits, into: &mut Bits)
        requires free { length free.now ≡ length (free_of self.now) }
        requires room { length into.old ≡ self.now.signals }
        ensures filled { IsFilled self.now free.now into.new }
        ensures only { (other : List Truth) → IsFilled self.now free.now other → other ≡ into.new }
    {
        self.facts();
        let order = self.order();
        let inputs = self.inputs().as_slice();
        let (of_inputs, of_latches) = free.as_slice().split_at(inputs.len());
        set_inputs(inputs, of_inputs, into);
        set_latches(self.latches().as_slice(), of_latches, into);
        set_outputs(self.tables().as_slice(), order, into);
    }
}

fn set_inputs(inputs: &[u32], given: &[bool], into: &mut Bits)
    requires size { length given.now ≡ length inputs.now }
    requires within { All (λ signal. signal < length into.old) inputs.now }
    ensures { into.new ≡ with_values inputs.now given.now into.old }
{
    for (place, signal) in inputs.iter().enumerate() {
        into.set(*signal as usize, given[place]);
    }
}

fn set_latches(latches: &[Latch], given: &[bool], into: &mut Bits)
    requires size { length given.now ≡ length latches.now }
    requires within { All (λ latch. latch.output < length into.old) latches.now }
    ensures { into.new ≡ with_values (map (λ latch. latch.output) latches.now) given.now into.old }
{
    for (place, latch) in latches.iter().enumerate() {
        into.set(latch.output as usize, given[place]);
    }
}

fn set_outputs(tables: &[Table], order: &[u32], into: &mut Bits)
    requires order { All (λ table. table < length tables.now) order.now }
    requires inputs { All (λ table. All (λ signal. signal < length into.old) table.inputs) tables.now }
    requires marks { All (λ table. All (λ row. length row ≡ length table.inputs) table.rows) tables.now }
    requires outputs { All (λ table. table.output < length into.old) tables.now }
    ensures { into.new ≡ with_outputs tables.now order.now into.old }
{
    for number in order {
        let table = &tables[*number as usize];
        let value = output_in(into.as_slice(), table);
        into.set(table.output as usize, value);
    }
}

/// What the output of a table is, by its rows.
pub(crate) fn output_in(valuation: &[bool], table: &Table) -> bool
    requires inputs { All (λ signal. signal < length valuation.now) table.now.inputs }
    requires marks { All (λ row. length row ≡ length table.now.inputs) table.now.rows }
    ensures { result ≡ output_in valuation.now table.now }
{
    if is_met(valuation, table) {
        table.value
    } else {
        !table.value
    }
}

/// Whether some row of a table fits.
fn is_met(valuation: &[bool], table: &Table) -> bool
    requires inputs { All (λ signal. signal < length valuation.now) table.now.inputs }
    requires marks { All (λ row. length row ≡ length table.now.inputs) table.now.rows }
    ensures { result ≡ list_any (λ row. fits_row row (values valuation.now table.now.inputs)) table.now.rows }
{
    let inputs = table.inputs.as_slice();
    for place in 0..table.rows.len() {
        if fits_row(table.rows.at(place), valuation, inputs) {
            return true;
        }
    }
    false
}

fn fits_row(row: &[Mark], valuation: &[bool], inputs: &[u32]) -> bool
    requires size { length row.now ≡ length inputs.now }
    requires within { All (λ signal. signal < length valuation.now) inputs.now }
    ensures { result ≡ fits_row row.now (values valuation.now inputs.now) }
{
    for (place, mark) in row.iter().enumerate() {
        if !fits_mark(*mark, valuation[inputs[place] as usize]) {
            return false;
        }
    }
    true
}

fn fits_mark(mark: Mark, value: bool) -> bool
    ensures { result ≡ fits_mark mark value }
{
    match mark {
        Mark::Zero => !value,
        Mark::One => value,
        Mark::Any => true,
    }
}
