ghost use Rattle.std.specs.Prelude.{◌≡◌, ◌⊎◌, ◌≤◌, ◌∷◌, ◌++◌, [], length, map, All, None, Some, IfErr, IfSome, OnOk};
ghost use Rattle.std.specs.Option.{option_map};
ghost use Rattle.std.specs.Str.{bytes_eq};
ghost use Rattle.psl_base.specs.Places.{file_limit};
ghost use Rattle.blif_model.specs.Models.{mention_as};
ghost use Rattle.blif_model.specs.Names.{mention_fault, names_fault_in, number_of, numbers_in, with_mention, with_mentions};
ghost use Rattle.blif_model.specs.Rules.{clocking_fault, output_fault};
ghost use Rattle.blif_model.specs.Shapes.{is_one as one};
ghost use Rattle.blif_model.specs.Scanning.{IsWithin, word_of};
ghost use Rattle.blif_model.specs.Words.{clocking_in, mention_in, table_mentions};

use crate::BlifFault;
use crate::pieces::Span;
use crate::shapes::{Clocking, is_level, text_of};
use crate::signals::{Signals, place_in};
use psl_base::Numbers;

/// The fault of a row's output, by that of the first row of its table.
pub fn output_fault(whole: &[u8], first: Option<bool>, output: Span) -> Option<BlifFault>
    requires limit { length whole.now ≤ file_limit }
    requires within { IsWithin whole.now output }
    ensures { result ≡ output_fault first (word_of whole.now output) }
{
    let first = first?;
    if first != is_one(text_of(whole, output)) {
        return Some(BlifFault::MixedRows(place_in(whole, output)));
    }
    None
}

pub fn is_one(text: &[u8]) -> bool
    ensures { result ≡ one text.now }
{
    text == "1".as_bytes()
}

/// The fault of a latch's type, by the type and control of the first latch that has them.
pub fn clocking_fault(
    whole: &[u8],
    earlier: Option<Clocking>,
    clocking: Clocking,
) -> Option<BlifFault>
    requires limit { length whole.now ≤ file_limit }
    requires kind { IsWithin whole.now clocking.kind }
    requires control { IsWithin whole.now clocking.control }
    requires earlier { IfSome earlier (λ other. IsWithin whole.now other.kind × IsWithin whole.now other.control) }
    ensures { result ≡ clocking_fault (option_map (clocking_in whole.now) earlier) (Some (clocking_in whole.now clocking)) }
{
    if is_level(text_of(whole, clocking.kind)) {
        return Some(BlifFault::LatchType(place_in(whole, clocking.kind)));
    }
    let Some(other) = earlier else {
        return None;
    };
    if is_same(whole, other.kind, clocking.kind)
        && is_same(whole, other.control, clocking.control)
    {
        return None;
    }
    Some(BlifFault::TwoClocks(place_in(whole, clocking.kind)))
}

/// Whether two words have the same text.
fn is_same(whole: &[u8], left: Span, right: Span) -> bool
    requires left { IsWithin whole.now left }
    requires right { IsWithin whole.now right }
    ensures { result ≡ bytes_eq (word_of whole.now left).text (word_of whole.now right).text }
{
    text_of(whole, left) == text_of(whole, right)
}

/// A name is mentioned, and its number comes into a list.
pub fn mention_one(
    signals: &mut Signals,
    word: Span,
    drives: bool,
    numbers: &mut Numbers,
) -> Result<(), BlifFault>
    requires { IsWithin signals.old.whole word }
    ensures whole { signals.new.whole ≡ signals.old.whole }
    ensures named { OnOk result (signals.new ≡ with_mention signals.old (mention_in signals.old.whole drives word)) }
    ensures numbers { OnOk result (numbers.new ≡ numbers.old ++ number_of signals.new.names (word_of signals.old.whole word) ∷ []) }
    ensures faultless { OnOk result (mention_fault signals.old (mention_in signals.old.whole drives word) ≡ None) }
    ensures fault { IfErr result (λ fault. (fault ≡ BlifFault.NoMemory)
        ⊎ (mention_fault signals.old (mention_in signals.old.whole drives word) ≡ Some fault)) }
{
    let number = signals.mention(word, drives)?;
    numbers.push(number)?;
    Ok(())
}

/// Names are mentioned in order, up to the first fault, and their numbers come into a list.
pub fn mention_all(
    signals: &mut Signals,
    words: &[Span],
    drives: bool,
    numbers: &mut Numbers,
) -> Result<(), BlifFault>
    requires { All (IsWithin signals.old.whole) words.now }
    ensures whole { signals.new.whole ≡ signals.old.whole }
    ensures named { let mentions = map (mention_as drives) (map (word_of signals.old.whole) words.now) in
        OnOk result (signals.new ≡ with_mentions signals.old mentions) }
    ensures numbers { let mentions = map (mention_as drives) (map (word_of signals.old.whole) words.now) in
        OnOk result (numbers.new ≡ numbers.old ++ numbers_in signals.old mentions) }
    ensures faultless { let mentions = map (mention_as drives) (map (word_of signals.old.whole) words.now) in
        OnOk result (names_fault_in signals.old mentions ≡ None) }
    ensures fault { let mentions = map (mention_as drives) (map (word_of signals.old.whole) words.now) in
        IfErr result (λ fault. (fault ≡ BlifFault.NoMemory) ⊎ (names_fault_in signals.old mentions ≡ Some fault)) }
{
    for word in words {
        mention_one(signals, *word, drives, numbers)?;
    }
    Ok(())
}

/// The names of a table are mentioned, its inputs and then its output, up to the first fault, and their numbers come
/// into a list.
pub fn mention_table(
    signals: &mut Signals,
    inputs: &[Span],
    output: Span,
    numbers: &mut Numbers,
) -> Result<(), BlifFault>
    requires inputs { All (IsWithin signals.old.whole) inputs.now }
    requires output { IsWithin signals.old.whole output }
    ensures whole { signals.new.whole ≡ signals.old.whole }
    ensures named { OnOk result (signals.new ≡ with_mentions signals.old (table_mentions signals.old.whole inputs.now output)) }
    ensures numbers { OnOk result (numbers.new ≡ numbers.old ++ numbers_in signals.old (table_mentions signals.old.whole inputs.now output)) }
    ensures faultless { OnOk result (names_fault_in signals.old (table_mentions signals.old.whole inputs.now output) ≡ None) }
    ensures fault { IfErr result (λ fault. (fault ≡ BlifFault.NoMemory)
        ⊎ (names_fault_in signals.old (table_mentions signals.old.whole inputs.now output) ≡ Some fault)) }
{
    mention_all(signals, inputs, false, numbers)?;
    mention_one(signals, output, true, numbers)?;
    Ok(())
}
