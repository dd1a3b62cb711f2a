ghost use Rattle.std.specs.Prelude.{◌≡◌, ◌<◌, ◌↔◌, IsTrue, length, All};
ghost use Rattle.netlist.specs.Runs.{AreSized, IsMade, IsRun, Moves};
ghost use Rattle.netlist.specs.Valuations.{Agree, Begin, IsValuation, MayBegin, Move};

use crate::evaluation::output_in;
use crate::run::valuation_at;
use crate::{Init, Latch, Netlist, Run, Table, Valuations};

impl Netlist {
    /// Whether a stem and a loop are a run of the netlist: the loop is not empty, the first valuation is initial, and
    /// from each valuation to the next there is a step, also from the last one of the loop to its first. It takes no
    /// memory.
    pub fn is_run(&self, run: &Run) -> bool
        ensures { IsTrue result ↔ IsRun self.now run.now }
    {
        if !self.is_made(run) {
            return false;
        }
        self.begins(valuation_at(run, 0)) && self.moves(run)
    }

    // Whether a stem and a loop are made of valuations, and there is a loop.
    fn is_made(&self, run: &Run) -> bool
        ensures { IsTrue result ↔ IsMade self.now run.now }
    {
        !run.loop_part.as_slice().is_empty()
            && self.are_valuations(&run.stem)
            && self.are_valuations(&run.loop_part)
    }

    fn are_valuations(&self, all: &Valuations) -> bool
        ensures { IsTrue result ↔ All (IsValuation self.now) all.now }
    {
        all.as_slice()
            .iter()
            .all(|valuation| self.is_valuation(valuation.as_slice()))
    }

    fn is_valuation(&self, valuation: &[bool]) -> bool
        ensures { IsTrue result ↔ IsValuation self.now valuation.now }
    {
        self.facts();
        valuation.len() == self.signals() as usize && agree(self.tables().as_slice(), valuation)
    }

    fn begins(&self, valuation: &[bool]) -> bool
        requires { length valuation.now ≡ self.now.signals }
        ensures { IsTrue result ↔ Begin self.now.latches valuation.now }
    {
        self.facts();
        begin(self.latches().as_slice(), valuation)
    }

    // Whether the latches move from each valuation to the next.
    fn moves(&self, run: &Run) -> bool
        requires loops { 0 < length run.now.loop_part }
        requires sizes { AreSized self.now run.now }
        ensures { IsTrue result ↔ Moves self.now run.now }
    {
        self.facts();
        let latches = self.latches().as_slice();
        let count = run.stem.as_slice().len() + run.loop_part.as_slice().len();
        for place in 0..count {
            if !latches_move(
                latches,
                valuation_at(run, place),
                valuation_at(run, place + 1),
            ) {
                return false;
            }
        }
        true
    }
}

// Whether the outputs of tables are what their rows say.
fn agree(tables: &[Table], valuation: &[bool]) -> bool
    requires inputs { All (λ table. All (λ signal. signal < length valuation.now) table.inputs) tables.now }
    requires marks { All (λ table. All (λ row. length row ≡ length table.inputs) table.rows) tables.now }
    requires outputs { All (λ table. table.output < length valuation.now) tables.now }
    ensures { IsTrue result ↔ Agree tables.now valuation.now }
{
    tables.iter().all(|table| valuation[table.output as usize] == output_in(valuation, table))
}

// Whether the outputs of latches are first values that they may have.
fn begin(latches: &[Latch], valuation: &[bool]) -> bool
    requires { All (λ latch. latch.output < length valuation.now) latches.now }
    ensures { IsTrue result ↔ Begin latches.now valuation.now }
{
    latches.iter().all(|latch| may_begin(latch.init, valuation[latch.output as usize]))
}

fn latches_move(latches: &[Latch], earlier: &[bool], later: &[bool]) -> bool
    requires inputs { All (λ latch. latch.input < length earlier.now) latches.now }
    requires outputs { All (λ latch. latch.output < length later.now) latches.now }
    ensures { IsTrue result ↔ Move latches.now earlier.now later.now }
{
    latches.iter().all(|latch| later[latch.output as usize] == earlier[latch.input as usize])
}

fn may_begin(init: Init, value: bool) -> bool
    ensures { IsTrue result ↔ MayBegin init value }
{
    match init {
        Init::Zero => !value,
        Init::One => value,
        Init::Free => true,
    }
}
