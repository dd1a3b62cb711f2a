// What the faults of texts, recordings, netlists and directives are called in a run, and where they stand.
ghost use Rattle.std.specs.Prelude.{◌≡◌, ◌≢◌, ◌⊎◌, ◌≤◌, length};
ghost use Rattle.psl_base.specs.Places.{file_limit};
ghost use Rattle.commands.specs.Diagnostics as spec;
ghost use Rattle.commands.specs.Faults.{at, whole, fault_in, missing_in, of_none};

use crate::outcome::Fault;
use crate::reason::{Diagnostic, Reason};
use blif_reader::BlifFault;
use psl_base::{NoMemory, Place, Text, place_of};
use psl_layer_theory::LayerFault;
use psl_lexer::{LexFault, Tokens};
use psl_parser::ParseFault;
use psl_tree::{Limit, Unit, UnitFault};
use std::alloc::Global;
use vcd_reader::VcdFault;

/// A fault of no file.
pub fn of_none(reason: Reason) -> Fault
    ensures { result ≡ of_none reason }
{
    Fault {
        reason,
        file: None,
        place: None,
        signal: None,
    }
}

impl From<NoMemory> for Fault {
    ghost use Rattle.commands.specs.Faults.{of_none};
    ghost use Rattle.commands.specs.declared.reason.Reason.TheVariants.{NoMemory as MemoryReason};

    ghost from_gives = { λ _ fault. fault ≡ of_none MemoryReason };

    fn from(_refused: NoMemory) -> Fault {
        of_none(Reason::NoMemory)
    }
}

/// The fault of a file; or want of memory, where that is the reason or where the file's name cannot be kept.
pub fn fault_in(alloc: Global, name: &str, diagnostic: Diagnostic) -> Fault
    ensures { (result ≡ of_none Reason.NoMemory) ⊎ ((diagnostic.reason ≢ Reason.NoMemory) × (result ≡ fault_in name.now diagnostic)) }
{
    if let Reason::NoMemory = diagnostic.reason {
        return of_none(Reason::NoMemory);
    }
    match Text::from_slice(alloc, name.as_bytes()) {
        Ok(file) => Fault {
            reason: diagnostic.reason,
            file: Some(file),
            place: diagnostic.place,
            signal: None,
        },
        Err(_) => of_none(Reason::NoMemory),
    }
}

/// The fault of a recording that does not have a signal; or want of memory, where the file's name cannot be kept.
pub fn missing_in(alloc: Global, name: &str, signal: Text) -> Fault
    ensures { (result ≡ of_none Reason.NoMemory) ⊎ (result ≡ missing_in name.now signal) }
{
    match Text::from_slice(alloc, name.as_bytes()) {
        Ok(file) => Fault {
            reason: Reason::MissingSignal,
            file: Some(file),
            place: None,
            signal: Some(signal),
        },
        Err(_) => of_none(Reason::NoMemory),
    }
}

/// What is said at a place of a file.
pub fn at(reason: Reason, place: Place) -> Diagnostic
    ensures { result ≡ at reason place }
{
    Diagnostic {
        reason,
        place: Some(place),
    }
}

/// What is said of a whole file, or of none.
pub fn whole(reason: Reason) -> Diagnostic
    ensures { result ≡ whole reason }
{
    Diagnostic {
        reason,
        place: None,
    }
}

/// What is said of a fault of a text's bytes.
pub fn lex_diagnostic(fault: LexFault) -> Diagnostic
    ensures { result ≡ spec.lex_diagnostic fault }
{
    match fault {
        LexFault::BadByte(place) => at(Reason::BadByte, place),
        LexFault::Unended(place) => at(Reason::Unended, place),
        LexFault::NumberTooLarge(place) => at(Reason::NumberTooLarge, place),
        LexFault::NoMemory => whole(Reason::NoMemory),
    }
}

/// What is said of a fault of a text's tokens.
pub fn parse_diagnostic(text: &[u8], tokens: &Tokens, fault: ParseFault) -> Diagnostic
    requires { length text.now ≤ file_limit }
    ensures { result ≡ spec.parse_diagnostic text.now tokens.now fault }
{
    match fault {
        ParseFault::Syntax { token } => at(Reason::Syntax, token_place(text, tokens, token)),
        ParseFault::NestedTooDeep { token } => at(
            Reason::NestedTooDeep,
            token_place(text, tokens, token),
        ),
        ParseFault::StatementTooLong { token } => at(
            Reason::StatementTooLong,
            token_place(text, tokens, token),
        ),
        ParseFault::NoMemory => whole(Reason::NoMemory),
    }
}

/// The place of a token, counted from 0; the end of the text where there is none.
fn token_place(text: &[u8], tokens: &Tokens, token: u32) -> Place
    requires { length text.now ≤ file_limit }
    ensures { result ≡ spec.token_place text.now tokens.now token }
{
    match tokens.as_slice().get(token as usize) {
        Some(token) => token.place,
        None => place_of(text, text.len()),
    }
}

/// What is said of a fault of kinds and names.
pub fn layer_diagnostic(fault: LayerFault) -> Diagnostic
    ensures { result ≡ spec.layer_diagnostic fault }
{
    match fault {
        LayerFault::Kind(place) => at(Reason::Kind, place),
        LayerFault::UnknownName(place) => at(Reason::UnknownName, place),
        LayerFault::Ambiguous(place) => at(Reason::Ambiguous, place),
        LayerFault::DeclaredTwice(place) => at(Reason::DeclaredTwice, place),
        LayerFault::EmptyRange(place) => at(Reason::EmptyRange, place),
        LayerFault::ConstantTooWide(place) => at(Reason::ConstantTooWide, place),
        LayerFault::TooLarge(place) => at(Reason::TooLarge, place),
        LayerFault::NoMemory => whole(Reason::NoMemory),
    }
}

/// What is said at the word of the first directive with a number.
fn at_directive(reason: Reason, directives: &Unit, number: u32) -> Diagnostic
    ensures { result ≡ spec.at_directive reason directives.now number }
{
    Diagnostic {
        reason,
        place: directive_place(directives, number),
    }
}

/// What a limit is called that is passed.
fn limit_reason(limit: Limit) -> Reason
    ensures { result ≡ spec.limit_reason limit }
{
    match limit {
        Limit::Sere => Reason::SereTooLarge,
        Limit::Automaton => Reason::AutomatonTooLarge,
        Limit::Unroll => Reason::UnrollTooLarge,
        Limit::Formula => Reason::FormulaTooLarge,
    }
}

/// What is said of a fault of directives: it stands at the word of the directive.
pub fn judge_diagnostic(directives: &Unit, fault: UnitFault) -> Diagnostic
    ensures { result ≡ spec.judge_diagnostic directives.now fault }
{
    match fault {
        UnitFault::TooLarge(number, limit) => at_directive(limit_reason(limit), directives, number),
        UnitFault::NoMemory => whole(Reason::NoMemory),
    }
}

/// The place of the first directive with a number.
fn directive_place(directives: &Unit, number: u32) -> Option<Place>
    ensures { result ≡ spec.directive_place directives.now number }
{
    let numbered = directives
        .as_slice()
        .iter()
        .find(|directive| directive.number == number);
    match numbered {
        Some(directive) => Some(directive.place),
        None => None,
    }
}

/// What is said of a fault of a recording.
pub fn vcd_diagnostic(fault: VcdFault) -> Diagnostic
    ensures { result ≡ spec.vcd_diagnostic fault }
{
    match fault {
        VcdFault::UnknownKeyword(place) => at(Reason::UnknownKeyword, place),
        VcdFault::MissingEnd(place) => at(Reason::MissingEnd, place),
        VcdFault::BadVar(place) => at(Reason::BadVar, place),
        VcdFault::CodeSizeDiffers(place) => at(Reason::CodeSizeDiffers, place),
        VcdFault::ScopeNotOpen(place) => at(Reason::ScopeNotOpen, place),
        VcdFault::BadTime(place) => at(Reason::BadTime, place),
        VcdFault::TimeFalls(place) => at(Reason::TimeFalls, place),
        VcdFault::CodeNotDeclared(place) => at(Reason::CodeNotDeclared, place),
        VcdFault::BadValue(place) => at(Reason::BadValue, place),
        VcdFault::VectorTooLong(place) => at(Reason::VectorTooLong, place),
        VcdFault::ChangeBeforeDefinitionsEnd(place) => at(
            Reason::ChangeBeforeDefinitionsEnd,
            place,
        ),
        VcdFault::EndsInside(place) => at(Reason::EndsInside, place),
        VcdFault::TooManySamples(place) => at(Reason::TooManySamples, place),
        VcdFault::TooManySignals(place) => at(Reason::TooManySignals, place),
        VcdFault::TooLong => whole(Reason::TooLong),
        VcdFault::ReadFault => whole(Reason::ReadFault),
        VcdFault::NoMemory => whole(Reason::NoMemory),
    }
}

/// What is said of a fault of a netlist.
pub fn blif_diagnostic(fault: BlifFault) -> Diagnostic
    ensures { result ≡ spec.blif_diagnostic fault }
{
    match fault {
        BlifFault::UnknownCommand(place) => at(Reason::UnknownCommand, place),
        BlifFault::BadModel(place) => at(Reason::BadModel, place),
        BlifFault::BadRow(place) => at(Reason::BadRow, place),
        BlifFault::MixedRows(place) => at(Reason::MixedRows, place),
        BlifFault::BadLatch(place) => at(Reason::BadLatch, place),
        BlifFault::LatchType(place) => at(Reason::LatchType, place),
        BlifFault::TwoClocks(place) => at(Reason::TwoClocks, place),
        BlifFault::DrivenTwice(place) => at(Reason::DrivenTwice, place),
        BlifFault::Undriven(place) => at(Reason::Undriven, place),
        BlifFault::CombinationalCycle(place) => at(Reason::CombinationalCycle, place),
        BlifFault::MissingEnd(place) => at(Reason::NetlistMissingEnd, place),
        BlifFault::SecondModel(place) => at(Reason::SecondModel, place),
        BlifFault::TooLarge(place) => at(Reason::NetlistTooLarge, place),
        BlifFault::UnknownModel(place) => at(Reason::UnknownModel, place),
        BlifFault::BadConnection(place) => at(Reason::BadConnection, place),
        BlifFault::ModelRecursion(place) => at(Reason::ModelRecursion, place),
        BlifFault::DrivenBySubckt(place) => at(Reason::DrivenBySubckt, place),
        BlifFault::TooDeep(place) => at(Reason::ModelTooDeep, place),
        BlifFault::TooLong => whole(Reason::TooLong),
        BlifFault::ReadFault => whole(Reason::ReadFault),
        BlifFault::NoMemory => whole(Reason::NoMemory),
    }
}

/// The fault of the directive of a number that passes a limit: at its place in the text, or of the netlist. It may be want
/// of memory.
pub fn limit_fault(
    alloc: Global,
    unit: &str,
    netlist: &str,
    directives: &Unit,
    number: u32,
    limit: Limit,
) -> Fault
    ensures { (result ≡ of_none Reason.NoMemory)
        ⊎ (result ≡ spec.limit_fault unit.now netlist.now directives.now number limit) }
{
    match limit {
        Limit::Sere | Limit::Automaton => {
            let diagnostic = at_directive(limit_reason(limit), directives, number);
            fault_in(alloc, unit, diagnostic)
        }
        Limit::Unroll | Limit::Formula => fault_in(alloc, netlist, whole(limit_reason(limit))),
    }
}
