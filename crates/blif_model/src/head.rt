ghost use Rattle.std.specs.Prelude.{◌≡◌, ℕ, ◌≤◌, List, length, map, All};
ghost use Rattle.std.specs.Option.{option_map};
ghost use Rattle.psl_base.specs.Places.{file_limit};
ghost use Rattle.blif_model.specs.Rules.{head_rule_by, is_bad_latch, is_bad_model, is_bad_row, is_unknown};
ghost use Rattle.blif_model.specs.Scanning.{IsWithin, word_of};

use crate::BlifFault;
use crate::command::Command;
use crate::flags::Flags;
use crate::pieces::Span;
use crate::shapes::{is_row, latch_of};
use crate::signals::place_in;

/// The fault at the first word of a line of a model behind its `.model`, if it has one. The words are those behind a
/// command, or all of a row.
pub fn head_fault(
    whole: &[u8],
    flags: &Flags,
    command: Command,
    head: Span,
    words: &[Span],
) -> Option<BlifFault>
    requires limit { length whole.now ≤ file_limit }
    requires head { IsWithin whole.now head }
    requires words { All (IsWithin whole.now) words.now }
    ensures { result ≡ option_map (λ rule. rule (word_of whole.now head).place) (head_rule_by flags.now command (map (word_of whole.now) words.now)) }
{
    if is_unknown(command) {
        return Some(BlifFault::UnknownCommand(place_in(whole, head)));
    }
    if is_bad_row(whole, flags, command, words) {
        return Some(BlifFault::BadRow(place_in(whole, head)));
    }
    if is_bad_latch(whole, command, words) {
        return Some(BlifFault::BadLatch(place_in(whole, head)));
    }
    if flags.ended {
        return Some(BlifFault::SecondModel(place_in(whole, head)));
    }
    None
}

/// A `.model` without just one name, or a first one behind another command.
pub fn is_bad_model(flags: &Flags, words: &[Span]) -> bool
    ensures { (whole : List ℕ) → result ≡ is_bad_model flags.now (map (word_of whole) words.now) }
{
    words.len() != 1 || (flags.begun && !flags.titled)
}

/// A word that begins with a dot and is no command.
fn is_unknown(command: Command) -> bool
    ensures { result ≡ is_unknown command }
{
    match command {
        Command::Unknown => true,
        Command::Model
        | Command::Inputs
        | Command::Outputs
        | Command::Names
        | Command::Latch
        | Command::Clock
        | Command::End
        | Command::Row => false,
    }
}

/// No row of the table above, or a `.names` without a name.
fn is_bad_row(whole: &[u8], flags: &Flags, command: Command, words: &[Span]) -> bool
    requires { All (IsWithin whole.now) words.now }
    ensures { result ≡ is_bad_row flags.now command (map (word_of whole.now) words.now) }
{
    match command {
        Command::Row => match flags.width {
            Some(width) => !is_row(whole, words, width),
            None => true,
        },
        Command::Names => words.is_empty(),
        Command::Model
        | Command::Inputs
        | Command::Outputs
        | Command::Latch
        | Command::Clock
        | Command::End
        | Command::Unknown => false,
    }
}

/// A `.latch` whose words are no latch.
fn is_bad_latch(whole: &[u8], command: Command, words: &[Span]) -> bool
    requires { All (IsWithin whole.now) words.now }
    ensures { result ≡ is_bad_latch command (map (word_of whole.now) words.now) }
{
    match command {
        Command::Latch => latch_of(whole, words).is_none(),
        Command::Model
        | Command::Inputs
        | Command::Outputs
        | Command::Names
        | Command::Clock
        | Command::End
        | Command::Unknown
        | Command::Row => false,
    }
}
