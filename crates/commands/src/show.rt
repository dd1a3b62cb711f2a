ghost use Rattle.std.specs.Prelude.{◌≡◌, ◌∷◌, [], map, None, IfOk};
ghost use Rattle.psl_tree.specs.Directives.{AreOver, IsOver};
ghost use Rattle.psl_tree.specs.Plain.{plain};
ghost use Rattle.psl_tree.specs.Counts.{obligations_of, shown};
ghost use Rattle.psl_tree.specs.Names.{AreAlike};
ghost use Rattle.psl_tree.specs.Trees.{formula_of};
ghost use Rattle.commands.specs.Stages.{IsStage, IsReading};
ghost use Rattle.commands.specs.Waves.{LinesReading, ShowStage, ShowNetlistStage, line_of};

use crate::directives::directives;
use crate::inputs::{load_circuit, load_inputs};
use crate::outcome::{Fault, Line, Lines};
use clock_rewrite::unclock;
use psl_base::{NoMemory, Shelf, Text};
use psl_grammar::UnitTree;
use psl_text::print_fl;
use psl_tree::{Directive, Fl, Names, obligations};
use std::alloc::Global;
use vcd_reader::Unknown;

/// What the directives of a text mean over the names of a recording, both read from files: `show UNIT NAMES`.
pub fn show<F: Shelf>(alloc: Global, files: &mut F, unit: &str, names: &str) -> Result<Lines, Fault>
    ensures { IsStage (unit.now ∷ names.now ∷ []) (ShowStage unit.now names.now) (F.state files.old) (F.state files.new) result }
{
    let inputs = load_inputs(alloc, files, unit, names, Unknown::Zero)?;
    lines(alloc, &inputs.tree, inputs.recording.names(), unit)
}

/// What the directives of a text mean over the names of a netlist, both read from files: `show UNIT NETLIST --netlist`.
pub fn show_netlist<F: Shelf>(
    alloc: Global,
    files: &mut F,
    unit: &str,
    netlist: &str,
) -> Result<Lines, Fault>
    ensures { IsStage (unit.now ∷ netlist.now ∷ []) (ShowNetlistStage unit.now netlist.now) (F.state files.old) (F.state files.new) result }
{
    let circuit = load_circuit(alloc, files, unit, netlist)?;
    lines(alloc, &circuit.tree, circuit.netlist.names(), unit)
}

/// What the directives of a text mean over names.
fn lines(alloc: Global, tree: &UnitTree, names: &Names, unit: &str) -> Result<Lines, Fault>
    requires { AreAlike names.now }
    ensures { IsReading (unit.now ∷ []) (LinesReading unit.now tree.now names.now) result }
{
    let directives = directives(alloc, tree, names, unit)?;
    Ok(lines_of(alloc, directives.as_slice(), names)?)
}

/// A line for each directive.
fn lines_of(alloc: Global, directives: &[Directive], names: &Names) -> Result<Lines, NoMemory>
    requires { AreOver names.now directives.now }
    ensures { IfOk result (λ lines. lines ≡ map (line_of names.now) directives.now) }
{
    let mut lines = Lines::new(alloc);
    for directive in directives {
        lines.push(line_of(alloc, directive, names)?)?;
    }
    Ok(lines)
}

/// The line of a directive.
fn line_of(alloc: Global, directive: &Directive, names: &Names) -> Result<Line, NoMemory>
    requires { IsOver names.now directive.now }
    ensures { IfOk result (λ line. line ≡ line_of names.now directive.now) }
{
    Ok(Line {
        number: directive.number,
        kind: directive.kind,
        label: copy_of(alloc, &directive.label)?,
        text: print_fl(alloc, &directive.formula, names)?,
        obligations: unclocked_obligations(alloc, &directive.formula)?,
    })
}

/// How many obligations a formula counts where its clocks are rewritten away.
fn unclocked_obligations(alloc: Global, formula: &Fl) -> Result<u64, NoMemory>
    ensures { IfOk result (λ count. count ≡ shown (obligations_of (plain (formula_of formula.now) None))) }
{
    let plain = unclock(alloc, formula, None)?;
    Ok(obligations(&plain))
}

fn copy_of(alloc: Global, label: &Option<Text>) -> Result<Option<Text>, NoMemory>
    ensures { IfOk result (λ new. new ≡ label.now) }
{
    match label {
        None => Ok(None),
        Some(label) => Ok(Some(label.copy(alloc)?)),
    }
}
