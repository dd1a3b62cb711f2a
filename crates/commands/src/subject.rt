ghost use Rattle.std.specs.Prelude.{◌∷◌, [], IfOk};
ghost use Rattle.psl_tree.specs.Directives.{AreOver, AreSmall};
ghost use Rattle.findings.specs.Asked.{AreNumbered};
ghost use Rattle.findings.specs.Traceable.{HasTraces};
ghost use Rattle.commands.specs.Stages.{IsStage, IsReading};
ghost use Rattle.commands.specs.Waves.{SubjectReading, SubjectStage};

use crate::directives::directives;
use crate::inputs::{Circuit, load_circuit};
use crate::outcome::Fault;
use netlist::Netlist;
use psl_base::Shelf;
use psl_tree::Unit;
use std::alloc::Global;

/// What is proved: a netlist, and the directives of a text over its names.
#[derive(Drop)]
pub struct Subject {
    pub netlist: Netlist,
    pub directives: Unit,
}

/// The directives of a text over a netlist, both read from files.
pub fn load_subject<F: Shelf>(
    alloc: Global,
    files: &mut F,
    unit: &str,
    netlist: &str,
) -> Result<Subject, Fault>
    ensures stage { IsStage (unit.now ∷ netlist.now ∷ []) (SubjectStage unit.now netlist.now) (F.state files.old) (F.state files.new) result }
    ensures in_range { IfOk result (λ subject. AreOver subject.netlist.names subject.directives) }
    ensures numbered { IfOk result (λ subject. AreNumbered subject.directives) }
    ensures small { IfOk result (λ subject. AreSmall subject.directives) }
    ensures traces { IfOk result (λ subject. HasTraces subject.netlist) }
{
    let circuit = load_circuit(alloc, files, unit, netlist)?;
    subject_of(alloc, circuit, unit)
}

/// The same of what was read.
fn subject_of(alloc: Global, circuit: Circuit, unit: &str) -> Result<Subject, Fault>
    requires traces { HasTraces circuit.netlist }
    ensures reading { IsReading (unit.now ∷ []) (SubjectReading unit.now circuit) result }
    ensures in_range { IfOk result (λ subject. AreOver subject.netlist.names subject.directives) }
    ensures numbered { IfOk result (λ subject. AreNumbered subject.directives) }
    ensures small { IfOk result (λ subject. AreSmall subject.directives) }
    ensures traces { IfOk result (λ subject. HasTraces subject.netlist) }
{
    let Circuit { tree, netlist } = circuit;
    let directives = directives(alloc, &tree, netlist.names(), unit)?;
    Ok(Subject {
        netlist,
        directives,
    })
}
