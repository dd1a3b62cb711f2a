ghost use Rattle.std.specs.Prelude.{◌≡◌, ℕ, ◌+◌, ◌<◌, ◌^◌, List, length, All, Any, Contains};
ghost use Rattle.psl_tree.specs.Names.{AreAlike};
ghost use Rattle.netlist.specs.Design.{driven_signals, marks_of};
ghost use Rattle.netlist.specs.Sound.{AreApart, IsOrder, IsSound, NamesBit};

use crate::{Latches, Signals, Tables};
use psl_tree::Names;
use std::marker::Model;

/// A netlist: signals of one bit, numbered from 0, that inputs, latches and tables drive. Beside what contracts see, an
/// order is kept in which the tables can be computed.
#[derive(Debug)]
pub struct Netlist {
    signals: u32,
    inputs: Signals,
    latches: Latches,
    tables: Tables,
    names: Names,
    order: Signals,
}

impl Model for Netlist {
    ghost use Rattle.netlist.specs.Design.{Design};

    ghost Value = { Design };

    ghost use Rattle.netlist.specs.Kept.{design_of, IsKept};

    ghost view = { design_of };

    ghost invariant = { IsKept };
}

// Written out, so that a caller's proof sees one call where a value is dropped.
impl Drop for Netlist {
    fn drop(self) {
        let Netlist {
            signals: _,
            inputs: _,
            latches: _,
            tables: _,
            names: _,
            order: _,
        } = self;
    }
}

impl Netlist {
    /// A netlist of its parts, and an order in which its tables can be computed. It takes no memory.
    pub fn of(
        signals: u32,
        inputs: Signals,
        latches: Latches,
        tables: Tables,
        names: Names,
        order: Signals,
    ) -> Netlist
        // what is read and driven are signals
        requires latch_inputs { All (λ latch. latch.input < signals) latches }
        requires table_inputs { All (λ table. All (λ signal. signal < signals) table.inputs) tables }
        requires driven { All (λ signal. signal < signals) (driven_signals inputs latches tables) }
        // just one input, latch or table drives each signal
        requires once { AreApart (driven_signals inputs latches tables) }
        requires each { (signal : ℕ) → signal < signals → Contains (driven_signals inputs latches tables) signal }
        // each row has a mark for each input of its table
        requires marks { All (λ table. All (λ row. length row ≡ length table.inputs) table.rows) tables }
        // each signal has a name, and each name is that of a signal of one bit
        requires named { (signal : ℕ) → signal < signals → Any (λ name. name.signal ≡ signal) names }
        requires names { All (NamesBit signals) names }
        requires bulk { signals + marks_of tables < 2 ^ 63 }
        requires order { IsOrder tables order }
        ensures { result ≡ record { signals = signals; inputs = inputs; latches = latches; tables = tables; names = names } }
    {
        Netlist {
            signals,
            inputs,
            latches,
            tables,
            names,
            order,
        }
    }

    /// How many signals there are.
    pub fn signals(&self) -> u32
        ensures { result ≡ self.now.signals }
    {
        self.signals
    }

    /// The inputs as listed.
    pub fn inputs(&self) -> &Signals
        ensures { result.now ≡ self.now.inputs }
    {
        &self.inputs
    }

    /// The latches as listed.
    pub fn latches(&self) -> &Latches
        ensures { result.now ≡ self.now.latches }
    {
        &self.latches
    }

    /// The tables as listed.
    pub fn tables(&self) -> &Tables
        ensures { result.now ≡ self.now.tables }
    {
        &self.tables
    }

    /// The names of the signals: each has at least one, with 0 as its left and its right index.
    pub fn names(&self) -> &Names
        ensures names { result.now ≡ self.now.names }
        // names of one signal have as many indices
        ensures alike { AreAlike self.now.names }
    {
        self.facts();
        &self.names
    }

    /// How many signals there are, and marks in all rows, together.
    pub fn bulk(&self) -> u64
        ensures { result ≡ self.now.signals + marks_of self.now.tables }
    {
        self.facts();
        let mut bulk = u64::from(self.signals());
        for table in self.tables().as_slice() {
            bulk += table.rows.mark_count() as u64;
        }
        bulk
    }

    /// An order in which the tables can be computed.
    pub(crate) fn order(&self) -> &[u32]
        ensures { IsOrder self.now.tables result.now }
    {
        self.order.as_slice()
    }

    /// What holds of each netlist, said where a proof needs it.
    pub(crate) fn facts(&self)
        ensures sound { IsSound self.now }
        ensures ordered { (order : List ℕ) × IsOrder self.now.tables order }
        ensures inputs { All (λ signal. signal < self.now.signals) self.now.inputs }
        ensures latches { All (λ latch. latch.output < self.now.signals) self.now.latches }
        ensures tables { All (λ table. table.output < self.now.signals) self.now.tables }
    {
        let _order = &self.order;
    }
}
