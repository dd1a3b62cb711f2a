//! What `clap` reads.

ghost use Rattle.std.specs.Prelude.{◌≡◌, ◌≢◌, ℕ, List, map, Some, IfOk, IfErr, is_some, true, slice_get, string_bytes};
ghost use Rattle.clap.specs.Words.{first_value, found_of};
ghost use Rattle.command_line.specs.Chains.{HasRequired, IsMadeOf};
ghost use Rattle.command_line.specs.Clap as spec;
ghost use Rattle.command_line.specs.Commands.{AreTaken, IsRefused, values_of};
ghost use Rattle.command_line.specs.Kinds.{name_of, rules_of};

use crate::WordsFault;
use crate::kinds::{Kind, args_of};
use clap::error::ErrorKind;
use clap::{Arg, ArgMatches};
use std::alloc::{AllocError, Global};

/// What `clap` finds in the words of a command, of which the first is its name.
pub fn parse<'a>(
    alloc: Global,
    kind: Kind,
    name: &'a str,
    words: &'a [String],
) -> Result<ArgMatches<'a>, WordsFault>
    requires name { name.now ≡ name_of kind }
    requires named { slice_get (map string_bytes words.now) 0 ≡ Some name.now }
    ensures taken { IfOk result (λ _. AreTaken kind (map string_bytes words.entry.now)) }
    ensures given { IfOk result (λ matches. (id : List ℕ) → first_value (found_of matches) id ≡ values_of kind (map string_bytes words.entry.now) id) }
    ensures required { IfOk result (λ matches. HasRequired (rules_of kind) (first_value (found_of matches))) }
    ensures usage { IfErr result (λ fault. fault ≡ WordsFault.Usage → (most : ℕ) → IsRefused most (map string_bytes words.entry.now)) }
{
    let command = command_with(alloc, name, args_of(alloc, kind)?)?;
    match command.try_get_matches_from(words) {
        Ok(matches) => Ok(matches),
        Err(error) => Err(fault_of_kind(error.kind())),
    }
}

/// The command of this name with these arguments, and without flags for help and for a version.
fn command_with<'a>(
    alloc: Global,
    name: &'a str,
    args: Vec<Arg<'a>>,
) -> Result<clap::Command<'a>, AllocError>
    ensures { IfOk result (IsMadeOf name.entry.now args.entry.items) }
{
    clap::Command::new(alloc, name)
        .disable_help_flag(true)
        .disable_version_flag(true)
        .args(args)
}

/// Want of memory is told as it is, and every other error of `clap` is a fault of the words.
fn fault_of_kind(kind: ErrorKind) -> WordsFault
    ensures memory { kind ≡ ErrorKind.OutOfMemory → result ≡ WordsFault.NoMemory }
    ensures usage { kind ≢ ErrorKind.OutOfMemory → result ≡ WordsFault.Usage }
{
    match kind {
        ErrorKind::OutOfMemory => WordsFault::NoMemory,
        _ => WordsFault::Usage,
    }
}

/// The text of a word that was found.
pub fn word<'a>(matches: &ArgMatches<'a>, id: &str) -> &'a str
    requires { is_some (first_value (found_of matches.now) id.now) ≡ true }
    ensures { first_value (found_of matches.now) id.now ≡ Some result.now }
{
    matches.get_str(id).unwrap()
}

/// Whether a flag was found.
pub fn is_set(matches: &ArgMatches, id: &str) -> bool
    ensures { result ≡ spec.is_true (first_value (found_of matches.now) id.now) }
{
    match matches.get_str(id) {
        Some(value) => value == "true",
        None => false,
    }
}
