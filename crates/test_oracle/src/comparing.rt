ghost use Rattle.std.specs.Prelude.{◌<◌, ◌≤◌, length, IfOk};
ghost use Rattle.psl_tree.specs.Directives.{AreOver, AreSmall};
ghost use Rattle.psl_tree.specs.declared.counts.TheConstants.{MOST_CONSTRUCTORS};
ghost use Rattle.psl_tree.specs.Counts.{formula_size};
ghost use Rattle.psl_tree.specs.Trees.{formula_of};

use crate::fault::Fault;
use crate::loops::{loop_answers, word};
use crate::rows::Row;
use crate::scenes::recording;
use alternating::of;
use clock_rewrite::unclock;
use psl_base::plain_decimal;
use psl_grammar::UnitTree;
use psl_layer::resolve;
use psl_lexer::lex;
use psl_parser::parse;
use psl_tree::{Fl, MOST_OBLIGATIONS, Unit, Word};
use std::alloc::Global;
use test_satisfaction::{Letter, is_satisfied};
use vcd_reader::Recording;
use wave_judge::judge;

/// The longest text, in bytes.
const LONGEST: usize = 1000;

/// What stands for the samples in a row on numbers of obligations.
const SIZES: &str = "obligations";

/// A recording without samples.
const NO_SAMPLES: &str = "none";

/// The tree of a text.
fn tree_of(alloc: Global, text: &str) -> Result<UnitTree, Fault> {
    if text.len() > LONGEST {
        return Err(Fault::TooLong);
    }
    let tokens = lex(alloc, text.as_bytes())?;
    Ok(parse(alloc, &tokens)?)
}

/// The directives of a text over the names of a recording.
fn directives(alloc: Global, text: &str, recording: &Recording) -> Result<Unit, Fault>
    ensures in_range { IfOk result (λ unit. AreOver recording.now.names unit) }
    ensures small { IfOk result (λ unit. AreSmall unit) }
{
    let tree = tree_of(alloc, text)?;
    Ok(resolve(alloc, &tree, recording.names())?)
}

fn add(shown: &mut String, views: [bool; 3]) -> Result<(), Fault> {
    if !shown.is_empty() {
        shown.push(' ')?;
    }
    for holds in views {
        shown.push(letter(holds))?;
    }
    Ok(())
}

fn letter(holds: bool) -> char {
    if holds { 'y' } else { 'n' }
}

/// The verdicts of the judge.
fn judged(alloc: Global, unit: &Unit, recording: &Recording) -> Result<String, Fault>
    requires in_range { AreOver recording.now.names unit.now }
    requires small { AreSmall unit.now }
{
    let mut shown = String::new(alloc);
    for verdict in judge(alloc, unit, recording)?.as_slice() {
        add(&mut shown, [verdict.weak, verdict.neutral, verdict.strong])?;
    }
    Ok(shown)
}

/// The verdicts of the plain recursion.
fn satisfied(alloc: Global, unit: &Unit, recording: &Recording) -> Result<String, Fault> {
    let mut shown = String::new(alloc);
    for directive in unit.as_slice() {
        let formula = &directive.formula;
        let weak = is_satisfied(alloc, recording, formula, Some(Letter::Top))?;
        let neutral = is_satisfied(alloc, recording, formula, None)?;
        let strong = is_satisfied(alloc, recording, formula, Some(Letter::Bottom))?;
        add(&mut shown, [weak, neutral, strong])?;
    }
    Ok(shown)
}

/// What is found of a row, where it is something else than what was worked out by hand.
pub fn difference(alloc: Global, row: &Row) -> Result<Option<String>, Fault> {
    if row.samples == SIZES {
        return size_difference(alloc, row);
    }
    match row.samples.split_once('|') {
        Some((stem, looped)) => loop_difference(alloc, row, stem, looped),
        None => recording_difference(alloc, row),
    }
}

/// What the judge and the plain recursion give.
fn recording_difference(alloc: Global, row: &Row) -> Result<Option<String>, Fault> {
    let recording = recording(alloc, row.samples)?;
    difference_on(alloc, row, &recording)
}

fn difference_on(alloc: Global, row: &Row, recording: &Recording) -> Result<Option<String>, Fault> {
    let wanted = row.verdicts;
    let unit = directives(alloc, row.text, recording)?;
    let judged = judged(alloc, &unit, recording)?;
    let satisfied = satisfied(alloc, &unit, recording)?;
    if judged.as_str() == wanted && satisfied.as_str() == wanted {
        return Ok(None);
    }
    let text = format!(in alloc;
        "wanted: {wanted}, the judge: {judged}, the recursion: {satisfied}"
    )?;
    Ok(Some(text))
}

/// The directives of a text over the names of a recording without samples.
fn directives_alone(alloc: Global, text: &str) -> Result<Unit, Fault>
    ensures { IfOk result (λ unit. AreSmall unit) }
{
    let recording = recording(alloc, NO_SAMPLES)?;
    directives(alloc, text, &recording)
}

/// What is said of directives on a word with a loop, a letter for each directive.
#[derive(Drop)]
struct Said {
    by_automata: String,
    by_duals: String,
    by_judge: String,
}

fn said_of(alloc: Global, unit: &Unit, word: &Word) -> Result<Said, Fault>
    requires small { AreSmall unit.now }
    requires looped { 0 < length word.now.looped }
{
    let mut said = Said {
        by_automata: String::new(alloc),
        by_duals: String::new(alloc),
        by_judge: String::new(alloc),
    };
    for directive in unit.as_slice() {
        let [by_automaton, by_dual, by_judge] = answers_of(alloc, &directive.formula, word)?;
        said.by_automata.push(letter(by_automaton))?;
        said.by_duals.push(letter(by_dual))?;
        said.by_judge.push(letter(by_judge))?;
    }
    Ok(said)
}

/// What is said of a formula.
fn answers_of(alloc: Global, formula: &Fl, word: &Word) -> Result<[bool; 3], Fault>
    requires small { formula_size (formula_of formula.now) ≤ MOST_CONSTRUCTORS }
    requires looped { 0 < length word.now.looped }
{
    let formula = unclock(alloc, formula, None)?;
    loop_answers(alloc, &formula, word)
}

/// What the automata, their duals and the lasso judge give on a word with a loop.
fn loop_difference(
    alloc: Global,
    row: &Row,
    stem: &str,
    looped: &str,
) -> Result<Option<String>, Fault> {
    let word = word(alloc, stem, looped)?;
    let unit = directives_alone(alloc, row.text)?;
    let said = said_of(alloc, &unit, &word)?;
    difference_of(alloc, row.verdicts, &said)
}

fn difference_of(alloc: Global, wanted: &str, said: &Said) -> Result<Option<String>, Fault> {
    let (by_automata, by_duals) = (said.by_automata.as_str(), said.by_duals.as_str());
    let by_judge = said.by_judge.as_str();
    if by_automata == wanted && by_duals == wanted && by_judge == wanted {
        return Ok(None);
    }
    let automata = automata_text(alloc, by_automata, by_duals)?;
    let text = loop_text(alloc, wanted, automata.as_str(), by_judge)?;
    Ok(Some(text))
}

fn automata_text(alloc: Global, accepted: &str, refused: &str) -> Result<String, Fault> {
    let text = format!(in alloc; "the automaton: {accepted}, its dual: {refused}")?;
    Ok(text)
}

fn loop_text(
    alloc: Global,
    wanted: &str,
    automata: &str,
    satisfied: &str,
) -> Result<String, Fault> {
    let text = format!(in alloc; "wanted: {wanted}, {automata}, the judge: {satisfied}")?;
    Ok(text)
}

/// How many obligations the automata have, where one has more than it may.
fn size_difference(alloc: Global, row: &Row) -> Result<Option<String>, Fault> {
    let wanted = row.verdicts;
    let Some(most) = plain_decimal(MOST_OBLIGATIONS, wanted.as_bytes()) else {
        return Err(Fault::Row);
    };
    let unit = directives_alone(alloc, row.text)?;
    for directive in unit.as_slice() {
        let count = obligations_of(alloc, &directive.formula)?;
        if u64::from(count) > most {
            let text = format!(in alloc; "wanted: at most {wanted} obligations, found: {count}")?;
            return Ok(Some(text));
        }
    }
    Ok(None)
}

/// How many obligations the automaton of a formula has.
fn obligations_of(alloc: Global, formula: &Fl) -> Result<u32, Fault>
    requires { formula_size (formula_of formula.now) ≤ MOST_CONSTRUCTORS }
{
    let formula = unclock(alloc, formula, None)?;
    let automaton = of(alloc, &formula)?;
    Ok(automaton.len())
}
