// Paths and edges.
ghost use Rattle.std.specs.Prelude.{◌≡◌, ◌&&◌, ◌++◌, true, Option, IfOk, if◌then◌else◌};
ghost use Rattle.std.specs.Option.{is_none, option_map};
ghost use Rattle.psl_layer_theory.specs.FirstFlaw.{first_of};
ghost use Rattle.psl_layer_theory.specs.Flaws as flaws;
ghost use Rattle.psl_layer_theory.specs.Kernel as kernel;
ghost use Rattle.psl_layer_theory.specs.Kinds as kinds;
ghost use Rattle.psl_layer_theory.specs.References as look;
ghost use Rattle.psl_layer_theory.specs.Operators.{edge_of as spec_edge};
ghost use Rattle.psl_layer_theory.specs.Texts.{path_text as spec_text};
ghost use Rattle.psl_layer_theory.specs.declared.fault.Cause.TheVariants as causes;
ghost use Rattle.psl_layer_theory.specs.declared.found.Reference.TheVariants as references;
ghost use Rattle.psl_layer_theory.specs.declared.kind.ExpressionKind.TheVariants as variants;
ghost use Rattle.psl_layer.specs.Built.{GivesOption, GivesPart, GivesSense, kind_in, operand_in};
ghost use Rattle.psl_layer.specs.CheckedBy.{IsNode, no_side as spec_no_side, path_checked};
ghost use Rattle.psl_layer.specs.Scopes.{Stands, named_in, meaning_as};

use crate::elaborated::{Checked, Elaborated, Part, Sense};
use crate::expressions::Context;
use crate::flaws::flaw_where;
use crate::meaning::Meaning;
use crate::nodes::{no_side, node};
use crate::order::earlier;
use crate::referred::Referred;
use crate::scope::{declared_meaning, is_declared};
use psl_base::{NoMemory, Place, boxed};
use psl_grammar::Path;
use psl_layer_theory::{Cause, ExpressionKind, Flaw, Reference, Side};
use psl_lexer::Token;
use psl_names::{PathIndex, edge_of, index_number, path_text, refers_to};
use psl_sugar::{MeasuredBool, Vector};
use psl_tree::{Atom, Edge};
use std::alloc::Global;

// The place of a path's first name.
fn path_place(path: &[Token]) -> Place
    ensures { result ≡ kinds.path_place path.now }
{
    match path {
        [first, ..] => first.place,
        [] => Place { line: 1, column: 1 },
    }
}

// What a text stands for, perhaps with an index.
#[tactic(auto, using(crate::proofs::Widths::text_some))]
fn referred(
    alloc: Global,
    names: &PathIndex,
    text: &[u8],
    index: &Option<Token>,
) -> Result<Referred, NoMemory>
    ensures { IfOk result (λ found. found.reference ≡ look.refers_to names.now text.now (look.index_number index.now)) }
{
    let reference = refers_to(alloc, names, text, index_number(index))?;
    Ok(Referred { reference })
}

// The fault of a path that stands for nothing, or for several signals.
fn reference_flaw(reference: &Reference, place: Place) -> Option<Flaw>
    ensures { result ≡ first_of (flaws.reference_flaws reference.now place) }
{
    match reference {
        Reference::Nothing => flaw_where(true, Cause::UnknownName, place),
        Reference::Several => flaw_where(true, Cause::Ambiguous, place),
        Reference::Bits(_) => None,
    }
}

// How many bits a path has, where these are known.
fn width_in(reference: &Reference) -> Option<u64>
    ensures { result ≡ flaws.width_in reference.now }
{
    match reference {
        Reference::Nothing | Reference::Several => None,
        Reference::Bits(bits) => Some(bits.width()),
    }
}

// The fault of an edge of more than one bit.
fn width_flaw(reference: &Reference, place: Place) -> Option<Flaw>
    ensures { result ≡ first_of (flaws.width_flaws reference.now place) }
{
    match reference {
        Reference::Nothing | Reference::Several => None,
        Reference::Bits(bits) => flaw_where(bits.width() != 1, Cause::Kind, place),
    }
}

// The first fault of an edge. A declared name with an index stands for no signal.
#[tactic(auto, using(crate::proofs::Firsts::of_both))]
fn edge_flaw(
    is_declared: bool,
    index: &Option<Token>,
    found: &Reference,
    place: Place,
) -> Option<Flaw>
    ensures { result ≡ first_of (if is_declared && is_none index.now then flaws.flaw_where true causes.Kind place
        else (let signal = if is_declared then references.Nothing else found.now in flaws.reference_flaws signal place ++ flaws.width_flaws signal place)) }
{
    if !is_declared {
        earlier(reference_flaw(found, place), width_flaw(found, place))
    } else if index.is_none() {
        flaw_where(true, Cause::Kind, place)
    } else {
        flaw_where(true, Cause::UnknownName, place)
    }
}

// The kind of a path by what it is declared as.
fn kind_as(declared: Option<ExpressionKind>, index: &Option<Token>) -> ExpressionKind
    ensures { result ≡ kinds.kind_as declared index.now }
{
    match (declared, index) {
        (Some(kind), None) => kind,
        _ => ExpressionKind::Boolean,
    }
}

// What is known of a path, by what it is declared as and by what it stands for as a signal.
fn checked_path(
    declared: Option<ExpressionKind>,
    index: &Option<Token>,
    found: &Reference,
    place: Place,
) -> Checked
    ensures { result ≡ path_checked declared index.now found.now place }
{
    let kind = kind_as(declared, index);
    if declared.is_none() {
        return Checked {
            kind,
            place,
            side: Side::Bits(width_in(found)),
            flaw: reference_flaw(found, place),
        };
    }
    if index.is_none() {
        return no_side(kind, place, None);
    }
    Checked {
        kind,
        place,
        side: Side::Bits(None),
        flaw: flaw_where(true, Cause::UnknownName, place),
    }
}

// The kind of what a path is declared as.
fn declared_kind(declared: &Option<Meaning>) -> Option<ExpressionKind>
    ensures { result ≡ option_map kind_in declared.now }
{
    match declared {
        Some(meaning) => Some(meaning.kind()),
        None => None,
    }
}

// What a path stands for: a declared name without an index for what it was declared as, any other for a signal.
fn sense_of(declared: Option<Meaning>, index: &Option<Token>, found: Referred) -> Sense
    ensures built { (wanted : Option kernel.Meaning) → GivesOption declared wanted → GivesSense result (meaning_as wanted index.now (kernel.bits_meaning found.reference)) }
    ensures operand { operand_in result ≡ kernel.bits_operand found.reference }
{
    match (declared, index) {
        (Some(meaning), None) => Sense::Declared(meaning, found),
        _ => Sense::Path(found),
    }
}

// A rise or a fall of the first of some bits.
#[tactic(auto, using(crate::proofs::Widths::edge_none, crate::proofs::Widths::edge_some))]
fn edge_of_first(edge: Edge, bits: &Vector) -> MeasuredBool
    ensures { result ≡ kernel.edge_of_first edge bits.now }
{
    if bits.width() == 0 {
        return MeasuredBool::constant(false);
    }
    let bit = bits.at(0);
    MeasuredBool::test(Atom {
        signal: bit.signal,
        bit: bit.place,
        edge,
    })
}

// A rise or a fall of a bit.
fn edge_of_bit(edge: Edge, found: &Reference) -> MeasuredBool
    ensures { result ≡ kernel.edge_meaning edge found.now }
{
    match found {
        Reference::Nothing | Reference::Several => MeasuredBool::constant(false),
        Reference::Bits(bits) => edge_of_first(edge, bits),
    }
}

impl<'s, 'd, 'n> Context<'s, 'd, 'n> {
    /// A path, perhaps with an index. The signal of a declared name is looked up too: a comparison of it has a fault, and
    /// yet a row of the kernel.
    #[inline(never)]
    pub(crate) fn signal(&self, path: &Path, index: &Option<Token>) -> Part
        requires { Stands self.now.scope.now self.now.names.now }
        ensures checked { IfOk result (λ new. new.value.checked ≡ path_checked (kinds.declared_as self.now.scope.now.before.now (spec_text path.now)) index.now
            (look.reference self.now.names.now path.now index.now) (kinds.path_place path.now)) }
        ensures built { GivesPart result (kernel.signal_meaning (named_in self.now.names.now self.now.scope.now.before.now) self.now.names.now path.now index.now) }
        ensures operand { IfOk result (λ new. operand_in new.value.sense ≡ kernel.bits_operand (look.reference self.now.names.now path.now index.now)) }
    {
        let text = path_text(self.alloc, path.as_slice())?;
        let found = referred(self.alloc, self.names, text.as_slice(), index)?;
        let declared = declared_meaning(self.alloc, self.scope, text.as_slice())?;
        let place = path_place(path.as_slice());
        let checked = checked_path(declared_kind(&declared), index, &found.reference, place);
        let sense = sense_of(declared, index, found);
        boxed(self.alloc, Elaborated { checked, sense })
    }

    /// `posedge` or `negedge` and a path, perhaps with an index.
    #[inline(never)]
    pub(crate) fn edge(&self, word: &Token, path: &Path, index: &Option<Token>) -> Part
        requires { Stands self.now.scope.now self.now.names.now }
        ensures checked { IsNode (spec_no_side variants.Boolean word.now.place (first_of (flaws.edge_flaws self.now.scope.now.before.now self.now.names.now path.now index.now))) result }
        ensures built { GivesPart result (kernel.OfBoolean (kernel.edge_meaning (spec_edge word.now.kind) (look.reference self.now.names.now path.now index.now))) }
    {
        let text = path_text(self.alloc, path.as_slice())?;
        let found = referred(self.alloc, self.names, text.as_slice(), index)?;
        let is_declared = is_declared(self.scope, text.as_slice());
        let place = path_place(path.as_slice());
        let flaw = edge_flaw(is_declared, index, &found.reference, place);
        let checked = no_side(ExpressionKind::Boolean, word.place, flaw);
        let test = edge_of_bit(edge_of(word.kind), &found.reference);
        node(self.alloc, checked, Meaning::Boolean(Ok(test)))
    }
}
