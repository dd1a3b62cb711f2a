// Statements, and lists of them.
ghost use Rattle.std.specs.List.{list_any};
ghost use Rattle.std.specs.Option.{option_or};
ghost use Rattle.std.specs.Prelude.{◌≡◌, ◌<◌, ◌+◌, ◌++◌, false, Option, Some, length, take, IfOk};
ghost use Rattle.psl_layer_theory.specs.Directives as directives;
ghost use Rattle.psl_layer_theory.specs.FirstFlaw.{first_of};
ghost use Rattle.psl_layer_theory.specs.Flaws as spec;
ghost use Rattle.psl_layer_theory.specs.Kinds.{kind_of, place_of};
ghost use Rattle.psl_layer_theory.specs.Operators as words;
ghost use Rattle.psl_layer_theory.specs.declared.fault.Cause.TheVariants as causes;
ghost use Rattle.psl_tree.specs.Trees.{Boolean};
ghost use Rattle.psl_layer.specs.Asked.{Asks, IsRead};
ghost use Rattle.psl_layer.specs.Built.{Gives};
ghost use Rattle.psl_layer.specs.Declaring.{IsGrown, IsNamed};
ghost use Rattle.psl_layer.specs.Scopes.{Stands, named_in, meaning_after};

use crate::asked::Asked;
use crate::elaborated::{Checked, Elaborated};
use crate::expressions::Context;
use crate::flaws::{flaw_where, wants_boolean, wants_sequence};
use crate::meaning::Meaning;
use crate::order::earlier;
use crate::scope::{Declared, Scope, declare, is_declared};
use psl_base::{NoMemory, Text};
use psl_grammar::{Expression, Statement};
use psl_layer_theory::{Cause, DeclarationWord, Flaw};
use psl_lexer::Token;
use psl_names::{PathIndex, declaration_word, directive_kind_of};
use psl_sugar::{MeasuredBool, SugarFault};
use psl_tree::Kind;
use std::alloc::Global;

/// What was read of a list of statements so far: what they declare, what they ask, and their first fault.
#[derive(Drop)]
pub(crate) struct Reading<'a> {
    pub scope: Scope<'a>,
    pub asked: Vec<Asked>,
    pub flaw: Option<Flaw>,
}

/// A directive that was read, and its first fault.
#[derive(Debug, Drop)]
struct ReadDirective {
    asked: Asked,
    flaw: Option<Flaw>,
}

/// What a declaration declares, and its first fault.
#[derive(Debug, Drop)]
struct ReadDeclaration {
    meaning: Meaning,
    flaw: Option<Flaw>,
}

// The text of a label, if there is one.
fn label_text(alloc: Global, label: &Option<Token>) -> Result<Option<Text>, NoMemory>
    ensures { IfOk result (λ text. text ≡ directives.label_text label.now) }
{
    Ok(match label {
        Some(label) => Some(label.text.copy(alloc)?),
        None => None,
    })
}

// The fault of a directive's operand.
fn directive_flaw(kind: Kind, property: Checked) -> Option<Flaw>
    ensures { result ≡ first_of (spec.directive_flaws kind property.kind property.place) }
{
    match kind {
        Kind::Cover => wants_sequence(property.kind, property.place),
        Kind::Assert | Kind::Assume => None,
    }
}

// A directive.
#[tactic(auto, using(crate::proofs::Firsts::of_both))]
fn read_directive(
    context: &Context,
    label: &Option<Token>,
    word: &Token,
    property: &Expression,
) -> Result<ReadDirective, NoMemory>
    requires { Stands context.now.scope.now context.now.names.now }
    ensures asked { IfOk result (λ new. (clock : Option Boolean) → Asks clock new.asked (record {
      kind = words.directive_kind_of word.now.kind;
      label = directives.label_text label.now;
      place = word.now.place;
      formula = directives.directive_formula (named_in context.now.names.now context.now.scope.now.before.now) context.now.names.now clock (words.directive_kind_of word.now.kind) property.now;
    })) }
    ensures flaw { IfOk result (λ new. new.flaw ≡ first_of (spec.expression_flaws context.now.scope.now.before.now context.now.names.now false property.now
        ++ spec.directive_flaws (words.directive_kind_of word.now.kind) (kind_of context.now.scope.now.before.now false property.now) (place_of property.now))) }
{
    let kind = directive_kind_of(word.kind);
    let read = context.directive(kind, property)?;
    let own = directive_flaw(kind, read.checked);
    let asked = Asked {
        kind,
        label: label_text(context.alloc, label)?,
        place: word.place,
        form: read.form,
    };
    let flaw = earlier(read.checked.flaw, own);
    Ok(ReadDirective { asked, flaw })
}

// The fault of a name that an earlier statement declares.
fn twice_flaw(context: &Context, name: &Token) -> Option<Flaw>
    requires { Stands context.now.scope.now context.now.names.now }
    ensures { result ≡ first_of (spec.twice_flaws context.now.scope.now.before.now name.now) }
{
    let is_declared = is_declared(context.scope, name.text.as_slice());
    flaw_where(is_declared, Cause::DeclaredTwice, name.place)
}

// The fault of a default clock behind another.
fn clock_flaw(context: &Context, word: &Token) -> Option<Flaw>
    requires { Stands context.now.scope.now context.now.names.now }
    ensures { result ≡ first_of (spec.flaw_where (list_any spec.declares_clock context.now.scope.now.before.now) causes.DeclaredTwice word.now.place) }
{
    let is_declared = context.scope.clock.is_some();
    flaw_where(is_declared, Cause::DeclaredTwice, word.place)
}

// The first fault of a declaration, without those of what it declares.
#[tactic(auto, using(crate::proofs::Firsts::of_both))]
fn declaration_flaw(context: &Context, word: &Token, name: &Token, body: Checked) -> Option<Flaw>
    requires { Stands context.now.scope.now context.now.names.now }
    ensures { result ≡ first_of (spec.declaration_flaws context.now.scope.now.before.now (words.declaration_word word.now.kind) word.now name.now body.kind body.place) }
{
    match declaration_word(word.kind) {
        DeclarationWord::Sequence => earlier(
            twice_flaw(context, name),
            wants_sequence(body.kind, body.place),
        ),
        DeclarationWord::Property => twice_flaw(context, name),
        DeclarationWord::DefaultClock => earlier(
            clock_flaw(context, word),
            wants_boolean(body.kind, body.place),
        ),
    }
}

// A declaration.
#[tactic(auto, using(crate::proofs::Firsts::of_both))]
fn read_declaration(
    context: &Context,
    word: &Token,
    name: &Token,
    body: &Expression,
) -> Result<ReadDeclaration, NoMemory>
    requires { Stands context.now.scope.now context.now.names.now }
    ensures meaning { IfOk result (λ new. Gives new.meaning (meaning_after context.now.names.now context.now.scope.now.before.now false body.now)) }
    ensures flaw { IfOk result (λ new. new.flaw ≡ first_of (spec.expression_flaws context.now.scope.now.before.now context.now.names.now false body.now
        ++ spec.declaration_flaws context.now.scope.now.before.now (words.declaration_word word.now.kind) word.now name.now (kind_of context.now.scope.now.before.now false body.now) (place_of body.now))) }
{
    let Elaborated { checked, sense } = Box::into_inner(context.elaborate(false, body)?);
    let own = declaration_flaw(context, word, name, checked);
    Ok(ReadDeclaration {
        meaning: sense.into_meaning(context.alloc),
        flaw: earlier(checked.flaw, own),
    })
}

// A scope behind a declaration of a name.
fn with_name<'a>(
    scope: Scope<'a>,
    before: &'a [Statement],
    text: &'a [u8],
    meaning: Meaning,
) -> Result<Scope<'a>, NoMemory>
    ensures before { IfOk result (λ new. new.before.now ≡ before.now) }
    ensures named { IfOk result (λ new. IsNamed scope.entry.declared text.now meaning new.declared) }
    ensures clock { IfOk result (λ new. new.clock ≡ scope.entry.clock) }
{
    let Scope {
        before: _,
        mut declared,
        clock,
    } = scope;
    declare(&mut declared, text, meaning)?;
    Ok(Scope {
        before,
        declared,
        clock,
    })
}

// A scope behind a declaration of the default clock.
fn with_clock<'a>(
    scope: Scope<'a>,
    before: &'a [Statement],
    clock: Result<MeasuredBool, SugarFault>,
) -> Scope<'a>
    ensures before { result.before.now ≡ before.now }
    ensures declared { result.declared ≡ scope.entry.declared }
    ensures clock { result.clock ≡ option_or scope.entry.clock (Some clock) }
{
    let Scope {
        before: _,
        declared,
        clock: first,
    } = scope;
    Scope {
        before,
        declared,
        clock: first.or(Some(clock)),
    }
}

// A scope behind a declaration.
fn with_declared<'a>(
    scope: Scope<'a>,
    before: &'a [Statement],
    word: &Token,
    name: &'a Token,
    meaning: Meaning,
) -> Result<Scope<'a>, NoMemory>
    ensures { IfOk result (IsGrown scope.entry before.now word.now name.now meaning) }
{
    let text = name.text.as_slice();
    match declaration_word(word.kind) {
        DeclarationWord::Sequence => {
            let meaning = Meaning::Sequence(meaning.into_sequence());
            with_name(scope, before, text, meaning)
        }
        DeclarationWord::Property => {
            let meaning = Meaning::Property(meaning.into_formula());
            with_name(scope, before, text, meaning)
        }
        DeclarationWord::DefaultClock => Ok(with_clock(scope, before, meaning.into_boolean())),
    }
}

// What was read with the statement at a place, where those before it were read.
fn with_statement<'a>(
    alloc: Global,
    names: &PathIndex,
    all: &'a [Statement],
    place: usize,
    reading: Reading<'a>,
) -> Result<Reading<'a>, NoMemory>
    requires inside { place < length all.now }
    requires read { IsRead names.now reading }
    requires before { reading.scope.before.now ≡ take place all.now }
    ensures read { IfOk result (IsRead names.now) }
    ensures before { IfOk result (λ new. new.scope.before.now ≡ take (place + 1) all.now) }
{
    let before = &all[..place + 1];
    let Reading {
        scope,
        mut asked,
        flaw,
    } = reading;
    let context = Context {
        alloc,
        scope: &scope,
        names,
    };
    match &all[place] {
        Statement::Directive {
            label,
            word,
            property,
            ..
        } => {
            let read = read_directive(&context, label, word, property)?;
            let scope = Scope {
                before,
                declared: scope.declared,
                clock: scope.clock,
            };
            asked.push(read.asked)?;
            let flaw = earlier(flaw, read.flaw);
            Ok(Reading { scope, asked, flaw })
        }
        Statement::Declaration { word, name, body } => {
            let read = read_declaration(&context, word, name, body)?;
            let scope = with_declared(scope, before, word, name, read.meaning)?;
            let flaw = earlier(flaw, read.flaw);
            Ok(Reading { scope, asked, flaw })
        }
    }
}

/// What is read of a list of statements.
pub(crate) fn read_statements<'a>(
    alloc: Global,
    names: &PathIndex,
    all: &'a [Statement],
) -> Result<Reading<'a>, NoMemory>
    ensures read { IfOk result (IsRead names.now) }
    ensures before { IfOk result (λ new. new.scope.before.now ≡ all.now) }
{
    let mut reading = Reading {
        scope: Scope {
            before: &all[..0],
            declared: Declared::new(alloc),
            clock: None,
        },
        asked: Vec::new(alloc),
        flaw: None,
    };
    for place in 0..all.len() {
        reading = with_statement(alloc, names, all, place, reading)?;
    }
    Ok(reading)
}
