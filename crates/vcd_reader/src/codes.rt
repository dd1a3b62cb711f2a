ghost use Rattle.std.specs.Prelude.{◌≡◌, ℕ, slice_index, ◌+◌, ◌<◌, ◌^◌, ◌∷◌, ◌++◌, [], true, length, vec_len, OnOk, OnErr, IfOk, IfSome};
ghost use Rattle.vcd_reader.specs.Labels.{place_of, is_new};
ghost use Rattle.vcd_reader.specs.Short.{short_place, number_of, noted};

use psl_base::NoMemory;
use std::alloc::Global;
use std::collections::HashMap;
use std::marker::Model;

/// How many texts of one byte and of two there are.
const SHORT: usize = 65_792;

/// How many hints there are.
const HINTS: usize = 65_536;

/// The codes of a recording: texts of which no two are equal, numbered from 0 in the order in which they came. Those of one byte
/// or two, which are most of the codes of a recording, are found by a table, which has for each of them
/// its number and 1 more, or 0. Those of three are looked for first where a second table points for them.
#[derive(Drop)]
pub struct CodeTable<'a> {
    short: Vec<u32>,
    hints: Vec<u32>,
    places: HashMap<&'a [u8], usize>,
    texts: Vec<&'a [u8]>,
}

impl<'a> Model for CodeTable<'a> {
    ghost use Rattle.std.specs.Prelude.{List, ℕ, ◌≡◌, map};
    ghost use Rattle.std.specs.HashMap.{get_by};
    ghost use Rattle.std.specs.Str.{bytes_eq};
    ghost use Rattle.vcd_reader.specs.Labels.{place_of, AreDistinct};
    ghost use Rattle.vcd_reader.specs.Short.{IsShortTable};

    ghost Value = { List (List ℕ) };

    ghost view = { λ table. map (λ text. text.now) table.texts.items };

    ghost invariant = { λ table. ((text : List ℕ) → get_by (λ key. bytes_eq text key.now) table.places ≡ place_of (map (λ other. other.now) table.texts.items) text)
        × IsShortTable table.short.items (map (λ other. other.now) table.texts.items) × AreDistinct (map (λ other. other.now) table.texts.items) };
}

impl<'a> CodeTable<'a> {
    /// No texts.
    pub fn new(alloc: Global) -> Result<CodeTable<'a>, NoMemory>
        ensures { IfOk result (λ table. table ≡ []) }
    {
        let short = zeros(alloc, SHORT)?;
        let hints = zeros(alloc, HINTS)?;
        Ok(CodeTable {
            short,
            hints,
            places: HashMap::new(alloc),
            texts: Vec::new(alloc),
        })
    }

    /// The number of a text, if it is there.
    #[inline]
    pub fn find(&self, text: &[u8]) -> Option<usize>
        ensures { result ≡ place_of self.now text.now }
    {
        match short_place(text) {
            Some(at) => number(self.short[at]),
            None => self.find_long(text),
        }
    }

    /// The same, without the table.
    #[inline(never)]
    fn find_long(&self, text: &[u8]) -> Option<usize>
        ensures { result ≡ place_of self.now text.now }
    {
        match self.hinted(text) {
            Some(number) => Some(number),
            None => self.places.get(text).copied(),
        }
    }

    /// The number of a text of three bytes, where its hint is right.
    fn hinted(&self, text: &[u8]) -> Option<usize>
        ensures { IfSome result (λ number. place_of self.now text.now ≡ Some number) }
    {
        let hint = *self.hints.as_slice().get(hint_place(text)?)? as usize;
        if self.has(hint, text) {
            Some(hint)
        } else {
            None
        }
    }

    /// Whether a number is that of a text.
    fn has(&self, number: usize, text: &[u8]) -> bool
        ensures { result ≡ true → place_of self.now text.now ≡ Some number }
    {
        let texts = self.texts.as_slice();
        number < texts.len() && same(texts[number], text)
    }

    /// One text more, which is not there yet.
    pub fn add(&mut self, text: &'a [u8]) -> Result<(), NoMemory>
        requires new { is_new self.old text.now ≡ true }
        requires few { length self.old + 1 < 2 ^ 32 }
        ensures ok { OnOk result (self.new ≡ self.old ++ text.now ∷ []) }
        ensures err { OnErr result (self.new ≡ self.old) }
    {
        let place = self.texts.len();
        self.texts.push(text)?;
        match self.places.insert(text, place) {
            Ok(_) => {
                note(&mut self.short, text, place as u32 + 1);
                hint(&mut self.hints, text, place as u32);
                Ok(())
            }
            Err(_) => {
                let _ = self.texts.pop();
                Err(NoMemory)
            }
        }
    }

    /// How many texts there are.
    pub fn len(&self) -> usize
        ensures { result ≡ length self.now }
    {
        self.texts.as_slice().len()
    }
}

/// The place of a text of one byte or two in a table of such texts.
fn short_place(text: &[u8]) -> Option<usize>
    ensures is { result ≡ short_place text.now }
    ensures within { IfSome result (λ at. at < 65_792) }
{
    match text {
        [first] => Some(*first as usize),
        [first, second] => Some(256 + *first as usize * 256 + *second as usize),
        _ => None,
    }
}

/// The number of an entry, if it has one.
fn number(entry: u32) -> Option<usize>
    ensures { result ≡ number_of entry }
{
    if entry == 0 {
        None
    } else {
        Some(entry as usize - 1)
    }
}

/// Writes the entry of a text, if it is short.
fn note(short: &mut Vec<u32>, text: &[u8], entry: u32)
    requires { vec_len short.old ≡ 65_792 }
    ensures { short.new.items ≡ noted short.old.items (short_place text.now) entry }
{
    if let Some(at) = short_place(text) {
        short[at] = entry;
    }
}

/// So many zeros.
fn zeros(alloc: Global, count: usize) -> Result<Vec<u32>, NoMemory>
    ensures sized { IfOk result (λ zeros. length zeros.items ≡ count) }
    ensures zero { IfOk result (λ zeros. (k : ℕ) → slice_index zeros.items k ≡ 0) }
{
    let mut zeros = Vec::new(alloc);
    zeros.resize(count, 0)?;
    Ok(zeros)
}

/// Whether two texts are equal.
fn same(text: &[u8], other: &[u8]) -> bool
    ensures { result ≡ true → text.now ≡ other.now }
{
    text == other
}

/// The place of the hint for a text of three bytes: another one for each of the codes that programs give one after the
/// other.
fn hint_place(text: &[u8]) -> Option<usize> {
    match text {
        [first, second, third] => {
            Some((*first as usize + *second as usize * 94 + *third as usize * 94 * 94) % HINTS)
        }
        _ => None,
    }
}

/// Writes the hint for a text, if it has three bytes.
fn hint(hints: &mut Vec<u32>, text: &[u8], number: u32) {
    if let Some(at) = hint_place(text) {
        if at < hints.len() {
            hints[at] = number;
        }
    }
}
