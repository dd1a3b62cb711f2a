ghost use Rattle.std.specs.Prelude.{◌≡◌, ◌↔◌, IfSome, IsNone, IsTrue, ℕ, decimal};
ghost use Rattle.clap.specs.Words.{first_value, found_of};
ghost use Rattle.command_line.specs.Numbers.{IsGiven, IsNumber};

use clap::ArgMatches;
use itoa::Buffer;

/// The number from `least` to `most` that a word is, or the value of an option.
pub fn number_of(matches: &ArgMatches, id: &str, least: u32, most: u32) -> Option<u32>
    ensures some { IfSome result (λ number. IsGiven least most (first_value (found_of matches.now) id.now) number) }
    ensures none { IsNone result → (number : ℕ) → IsGiven least most (first_value (found_of matches.now) id.now) number → ⊥ }
{
    match matches.get_str(id) {
        Some(word) => number(word, least, most),
        None => None,
    }
}

/// The number from `least` to `most` that a word is: the one whose decimal form it is, without a sign or
/// a leading zero.
fn number(word: &str, least: u32, most: u32) -> Option<u32>
    ensures some { IfSome result (λ number. IsNumber least most word.now number) }
    ensures none { IsNone result → (number : ℕ) → IsNumber least most word.now number → ⊥ }
{
    match word.parse::<u32>() {
        Ok(number) if least <= number && number <= most && is_form(word, number) => Some(number),
        _ => None,
    }
}

/// Whether a word is the decimal form of a number.
fn is_form(word: &str, number: u32) -> bool
    ensures { IsTrue result ↔ (word.now ≡ decimal number) }
{
    let mut buffer = Buffer::new();
    buffer.format(number) == word
}
