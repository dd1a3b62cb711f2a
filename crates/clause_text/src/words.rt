// The literals and the numbers of a line.
ghost use Rattle.std.specs.Prelude.{◌≡◌, ◌↔◌, ℕ, ℤ, true, false, List, [], ◌∷◌, ◌++◌, ◌<◌, ◌≤◌, length, take, slice_index, map, pos, IsTrue, IfOk, IfSome, IfNone};
ghost use Rattle.std.specs.Option.{option_map};
ghost use Rattle.std.specs.List.{list_all};
ghost use Rattle.clauses.specs.Literals.{clause_within};
ghost use Rattle.clauses.specs.Logs.LogEntry.{Forget};
ghost use Rattle.clauses.specs.Logs.{is_number};
ghost use Rattle.clauses.specs.declared.flat.TheConstants.{MOST_VARIABLES};
ghost use Rattle.clause_text.specs.Lines.{lacks, entry_text};
ghost use Rattle.clause_text.specs.Words.{IsList, AreNumbers, AreHints, IsLemmaLine};

use crate::lines::LineRoom;
use crate::numbers::{clause_number, literal};
use psl_base::NoMemory;

/// The literals up to a 0 with which a line begins, and what stands behind that 0. Each of them has a blank behind it,
/// and a blank or the end of the line stands behind the 0. None where the line does not begin so.
pub(crate) fn read_literals<'a>(
    line: &'a [u8],
    literals: &mut Vec<i32>,
) -> Result<Option<&'a [u8]>, NoMemory>
    ensures { IfOk result (λ behind. IsList line.now (option_map (λ bytes. bytes.now) behind) literals.new.items) }
{
    literals.clear();
    let mut rest = line;
    loop {
        let (word, behind) = rest.split_at(length_before(b' ', rest));
        if is_zero(word) {
            return Ok(Some(behind));
        }
        let Some(literal) = literal(word) else {
            return Ok(None);
        };
        let Some((_, next)) = behind.split_first() else {
            return Ok(None);
        };
        literals.push(literal)?;
        rest = next;
    }
}

/// Whether a text is `0`.
fn is_zero(text: &[u8]) -> bool
    ensures { IsTrue result ↔ (text.now ≡ 48 ∷ []) }
{
    text.len() == 1 && text[0] == b'0'
}

/// How many bytes stand before the first of these, or before the end where there is none.
pub(crate) fn length_before(mark: u8, text: &[u8]) -> usize
    ensures within { result ≤ length text.now }
    ensures before { lacks mark (take result text.now) ≡ true }
    ensures behind { result < length text.now → slice_index text.now result ≡ mark }
{
    for (place, byte) in text.iter().enumerate() {
        if *byte == mark {
            return place;
        }
    }
    text.len()
}

/// Whether a line is a lemma's, whose literals and hints are then those.
pub(crate) fn read_lemma(line: &[u8], lemma: &mut LineRoom) -> Result<bool, NoMemory>
    ensures { IfOk result (λ is. IsLemmaLine line.now lemma.new.literals.items lemma.new.hints.items is) }
{
    let Some(behind) = read_literals(line, &mut lemma.literals)? else {
        return Ok(false);
    };
    let Some((_, second)) = behind.split_first() else {
        return Ok(false);
    };
    let all = read_hints(second, &mut lemma.numbers, &mut lemma.hints)?;
    Ok(all)
}

/// Whether a text is hints and a 0 behind them, which are then those.
fn read_hints(text: &[u8], numbers: &mut Vec<i32>, hints: &mut Vec<u32>) -> Result<bool, NoMemory>
    ensures { IfOk result (λ are. AreHints text.now hints.new.items are) }
{
    let Some(end) = read_literals(text, numbers)? else {
        return Ok(false);
    };
    if !end.is_empty() {
        return Ok(false);
    }
    let are = as_numbers(numbers, hints)?;
    Ok(are)
}

/// The number that a drop line names.
pub(crate) fn read_drop(line: &[u8]) -> Option<u32>
    ensures some { IfSome result (λ number. (is_number number ≡ true) × (line.now ≡ entry_text (Forget number))) }
    ensures none { IfNone result ((number : ℕ) → is_number number ≡ true → line.now ≡ entry_text (Forget number) → ⊥) }
{
    let (first, behind) = line.split_first()?;
    let (second, number) = behind.split_first()?;
    if *first == b'd' && *second == b' ' {
        clause_number(number)
    } else {
        None
    }
}

/// Literals as numbers of clauses. None where one of them is negated.
pub(crate) fn as_numbers(literals: &[i32], numbers: &mut Vec<u32>) -> Result<bool, NoMemory>
    requires { IsTrue (clause_within MOST_VARIABLES literals.now) }
    ensures { IfOk result (λ all. AreNumbers literals.now numbers.new.items all) }
{
    numbers.clear();
    for literal in literals {
        if *literal < 0 {
            return Ok(false);
        }
        numbers.push(*literal as u32)?;
    }
    Ok(true)
}
