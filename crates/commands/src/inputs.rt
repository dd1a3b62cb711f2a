ghost use Rattle.std.specs.Prelude.{◌≡◌, ◌≤◌, ◌∷◌, [], length, IfOk, IfErr};
ghost use Rattle.findings.specs.Traceable.{HasTraces};
ghost use Rattle.psl_base.specs.Places.{file_limit};
ghost use Rattle.psl_base.specs.Shelf.{OnlyReads, IsContent};
ghost use Rattle.commands.specs.Stages.{IsStage, IsReading, IsCounted, LoadFails};
ghost use Rattle.commands.specs.Waves.{TokensReading, TreeReading, UnitReading, UnitStage, RecordingStage, InputsStage};
ghost use Rattle.commands.specs.Waves.{NetlistStage, CircuitStage};

use crate::faults::{
    blif_diagnostic, fault_in, lex_diagnostic, of_none, parse_diagnostic, vcd_diagnostic, whole,
};
use crate::outcome::Fault;
use crate::reason::Reason;
use blif_reader::read_blif;
use netlist::{Netlist, soundness_law};
use psl_base::{Bytes, FILE_LIMIT, ReadAllFault, Shelf, read_all};
use psl_grammar::UnitTree;
use psl_lexer::{Tokens, lex};
use psl_parser::parse;
use std::alloc::Global;
use vcd_reader::{Recording, Unknown, read_vcd};

/// What a command reads: the tree of a text, and a recording.
#[derive(Drop)]
pub struct Inputs {
    pub tree: UnitTree,
    pub recording: Recording,
}

/// What a command over a netlist reads: the tree of a text, and the netlist.
#[derive(Drop)]
pub struct Circuit {
    pub tree: UnitTree,
    pub netlist: Netlist,
}

/// The text and the recording in two files, read in this order.
pub fn load_inputs<F: Shelf>(
    alloc: Global,
    files: &mut F,
    unit: &str,
    recording: &str,
    unknown: Unknown,
) -> Result<Inputs, Fault>
    ensures { IsStage (unit.now ∷ recording.now ∷ []) (InputsStage unknown unit.now recording.now) (F.state files.old) (F.state files.new) result }
{
    let tree = load_unit(alloc, files, unit)?;
    let recording = load_recording(alloc, files, recording, unknown)?;
    Ok(Inputs { tree, recording })
}

/// The text and the netlist in two files, read in this order.
pub fn load_circuit<F: Shelf>(
    alloc: Global,
    files: &mut F,
    unit: &str,
    netlist: &str,
) -> Result<Circuit, Fault>
    ensures stage { IsStage (unit.now ∷ netlist.now ∷ []) (CircuitStage unit.now netlist.now) (F.state files.old) (F.state files.new) result }
    ensures traces { IfOk result (λ circuit. HasTraces circuit.netlist) }
{
    let tree = load_unit(alloc, files, unit)?;
    let netlist = load_netlist(alloc, files, netlist)?;
    Ok(Circuit { tree, netlist })
}

/// The netlist in a file.
fn load_netlist<F: Shelf>(alloc: Global, files: &mut F, name: &str) -> Result<Netlist, Fault>
    ensures stage { IsStage (name.now ∷ []) (NetlistStage name.now) (F.state files.old) (F.state files.new) result }
    ensures traces { IfOk result HasTraces }
{
    match read_blif(alloc, files, name) {
        Ok(netlist) => {
            soundness_law(&netlist);
            Ok(netlist)
        }
        Err(fault) => Err(fault_in(alloc, name, blif_diagnostic(fault))),
    }
}

/// The recording in a file.
pub(crate) fn load_recording<F: Shelf>(
    alloc: Global,
    files: &mut F,
    name: &str,
    unknown: Unknown,
) -> Result<Recording, Fault>
    ensures { IsStage (name.now ∷ []) (RecordingStage unknown name.now) (F.state files.old) (F.state files.new) result }
{
    match read_vcd(alloc, files, name, unknown) {
        Ok(recording) => Ok(recording),
        Err(fault) => Err(fault_in(alloc, name, vcd_diagnostic(fault))),
    }
}

/// The tree of the text in a file.
fn load_unit<F: Shelf>(alloc: Global, files: &mut F, name: &str) -> Result<UnitTree, Fault>
    ensures { IsStage (name.now ∷ []) (UnitStage name.now) (F.state files.old) (F.state files.new) result }
{
    let text = load(alloc, files, name)?;
    parse_text(alloc, text.as_slice(), name)
}

/// The whole content of a file.
pub(crate) fn load<F: Shelf>(alloc: Global, files: &mut F, name: &str) -> Result<Bytes, Fault>
    ensures content { IfOk result (λ bytes. IsContent (F.state files.old) name.now bytes) }
    ensures within { IfOk result (λ bytes. length bytes ≤ file_limit) }
    ensures refuses { IfErr result (λ fault. LoadFails name.now (F.state files.old) (F.state files.new) fault) }
    ensures quiet { IfOk result (λ _. (F.state files.new).read_faults ≡ (F.state files.old).read_faults) }
    ensures counted { IfErr result (λ fault. IsCounted (F.state files.old) (F.state files.new) fault) }
    ensures kept { OnlyReads (F.state files.old) (F.state files.new) }
{
    match read_all(alloc, files, name, FILE_LIMIT) {
        Ok(bytes) => Ok(bytes),
        Err(ReadAllFault::ReadFault) => Err(fault_in(alloc, name, whole(Reason::ReadFault))),
        Err(ReadAllFault::TooLong) => Err(fault_in(alloc, name, whole(Reason::TooLong))),
        Err(ReadAllFault::NoMemory) => Err(of_none(Reason::NoMemory)),
    }
}

/// The tree of a text.
fn parse_text(alloc: Global, text: &[u8], name: &str) -> Result<UnitTree, Fault>
    requires { length text.now ≤ file_limit }
    ensures { IsReading (name.now ∷ []) (UnitReading name.now text.now) result }
{
    let tokens = tokens_of(alloc, text, name)?;
    tree_of(alloc, text, &tokens, name)
}

/// The tokens of a text.
fn tokens_of(alloc: Global, text: &[u8], name: &str) -> Result<Tokens, Fault>
    requires { length text.now ≤ file_limit }
    ensures { IsReading (name.now ∷ []) (TokensReading name.now text.now) result }
{
    match lex(alloc, text) {
        Ok(tokens) => Ok(tokens),
        Err(fault) => Err(fault_in(alloc, name, lex_diagnostic(fault))),
    }
}

/// The tree of the tokens of a text.
fn tree_of(alloc: Global, text: &[u8], tokens: &Tokens, name: &str) -> Result<UnitTree, Fault>
    requires { length text.now ≤ file_limit }
    ensures { IsReading (name.now ∷ []) (TreeReading name.now text.now tokens.now) result }
{
    match parse(alloc, tokens) {
        Ok(tree) => Ok(tree),
        Err(fault) => Err(fault_in(alloc, name, parse_diagnostic(text, tokens, fault))),
    }
}
