// Names, and the buses among them.
ghost use Rattle.std.specs.Prelude.{◌≡◌, IfOk};
ghost use Rattle.psl_layer_theory.specs.Buses.{bus_names};

use crate::matching::NameIndex;
use psl_base::NoMemory;
use psl_tree::Names;
use std::alloc::Global;
use std::marker::Model;

/// Names and their buses, in the order of their ends, for looking many paths up. Contracts see it as the list of the
/// names.
#[derive(Drop)]
pub struct PathIndex<'a> {
    names: NameIndex<'a>,
    buses: NameIndex<'a>,
}

impl<'a> Model for PathIndex<'a> {
    ghost use Rattle.std.specs.Prelude.{◌≡◌, List};
    ghost use Rattle.psl_tree.specs.declared.name.Name.{Name};
    ghost use Rattle.psl_layer_theory.specs.Buses.{bus_names};

    ghost Value = { List Name };

    ghost view = { λ index. index.names };

    ghost invariant = { λ index. index.buses ≡ bus_names index.names };
}

impl<'a> PathIndex<'a> {
    /// The index of names, whose buses are given too.
    pub fn of(alloc: Global, names: &'a Names, buses: &'a Names) -> Result<PathIndex<'a>, NoMemory>
        requires { buses.now ≡ bus_names names.now }
        ensures { IfOk result (λ index. index ≡ names.now) }
    {
        Ok(PathIndex {
            names: NameIndex::of(alloc, names)?,
            buses: NameIndex::of(alloc, buses)?,
        })
    }

    /// The index of the names.
    pub(crate) fn names(&self) -> &NameIndex<'a>
        ensures { result.now ≡ self.now }
    {
        &self.names
    }

    /// The index of the buses.
    pub(crate) fn buses(&self) -> &NameIndex<'a>
        ensures { result.now ≡ bus_names self.now }
    {
        &self.buses
    }
}
