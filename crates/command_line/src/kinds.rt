//! The commands, and what `clap` is told of each. A new command has its rows here.

ghost use Rattle.std.specs.Prelude.{◌≡◌, ◌≢◌, map, IfOk, IfSome, IsNone};
ghost use Rattle.clap.specs.Words.{rule_of};
ghost use Rattle.command_line.specs.Clap as spec;
ghost use Rattle.command_line.specs.Kinds.{name_of, rules_of, word_of};

use crate::Unknown;
use clap::{Arg, ArgAction};
use std::alloc::{AllocError, Global};

/// A command, without its values.
#[derive(Clone, Copy)]
pub enum Kind {
    Wave,
    Gen,
    Show,
    Prove,
    Check,
    Replay,
}

/// The command of this name.
pub fn kind_named(name: &str) -> Option<Kind>
    ensures some { IfSome result (λ kind. name.now ≡ name_of kind) }
    ensures none { IsNone result → (kind : Kind) → name.now ≢ name_of kind }
{
    match name {
        "wave" => Some(Kind::Wave),
        "gen" => Some(Kind::Gen),
        "show" => Some(Kind::Show),
        "prove" => Some(Kind::Prove),
        "check" => Some(Kind::Check),
        "replay" => Some(Kind::Replay),
        _ => None,
    }
}

/// How unknown bits read by this word.
pub fn unknown_named(word: &str) -> Option<Unknown>
    ensures some { IfSome result (λ unknown. word.now ≡ word_of unknown) }
    ensures none { IsNone result → (unknown : Unknown) → word.now ≢ word_of unknown }
{
    match word {
        "zero" => Some(Unknown::Zero),
        "one" => Some(Unknown::One),
        "refuse" => Some(Unknown::Refuse),
        _ => None,
    }
}

/// The words, flags and options that follow a command's name.
pub fn args_of<'a>(alloc: Global, kind: Kind) -> Result<Vec<Arg<'a>>, AllocError>
    ensures { IfOk result (λ args. map rule_of args.items ≡ rules_of kind) }
{
    let args = match kind {
        Kind::Wave => vec![in alloc;
            required(alloc, "unit"),
            required(alloc, "recording"),
            option(alloc, "unknown", "zero"),
            flag(alloc, "where"),
        ]?,
        Kind::Gen => vec![in alloc; required(alloc, "seed"), required(alloc, "samples")]?,
        Kind::Show => vec![in alloc;
            required(alloc, "unit"),
            required(alloc, "names"),
            flag(alloc, "netlist"),
        ]?,
        Kind::Prove => vec![in alloc;
            required(alloc, "unit"),
            required(alloc, "netlist"),
            option(alloc, "depth", "20"),
            option(alloc, "visits", "4"),
            option(alloc, "steps", "1000000"),
            optional(alloc, "cert"),
            optional(alloc, "vcd"),
            option(alloc, "loops", "1"),
            flag(alloc, "reach"),
            flag(alloc, "covers"),
            flag(alloc, "buses"),
            flag(alloc, "progress"),
        ]?,
        Kind::Check => vec![in alloc;
            required(alloc, "unit"),
            required(alloc, "netlist"),
            required(alloc, "number"),
            required(alloc, "certificate"),
        ]?,
        Kind::Replay => vec![in alloc;
            required(alloc, "unit"),
            required(alloc, "netlist"),
            required(alloc, "recording"),
        ]?,
    };
    Ok(args)
}

/// A word that has to be there.
fn required<'a>(alloc: Global, id: &'a str) -> Arg<'a>
    ensures { rule_of result ≡ spec.required id.entry.now }
{
    Arg::new(alloc, id).required(true).action(ArgAction::Set)
}

/// A flag `--NAME`.
fn flag<'a>(alloc: Global, id: &'a str) -> Arg<'a>
    ensures { rule_of result ≡ spec.flag id.entry.now }
{
    Arg::new(alloc, id).long(id).action(ArgAction::SetTrue)
}

/// An option `--NAME VALUE`, and the value that it has where it is not given.
fn option<'a>(alloc: Global, id: &'a str, value: &'a str) -> Arg<'a>
    ensures { rule_of result ≡ spec.option id.entry.now value.entry.now }
{
    Arg::new(alloc, id)
        .long(id)
        .action(ArgAction::Set)
        .default_value(value)
}

/// Such an option that has no value where it is not given.
fn optional<'a>(alloc: Global, id: &'a str) -> Arg<'a>
    ensures { rule_of result ≡ spec.optional id.entry.now }
{
    Arg::new(alloc, id).long(id).action(ArgAction::Set)
}
