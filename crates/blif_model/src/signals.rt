ghost use Rattle.std.specs.Prelude.{◌≡◌, ◌⊎◌, ◌≤◌, ◌<◌, true, length, map, All, None, Some, IfOk, IfErr, OnOk};
ghost use Rattle.psl_base.specs.Places.{file_limit};
ghost use Rattle.blif_model.specs.Names.{is_new, mention_fault, nothing_named, number_of, with_mention};
ghost use Rattle.blif_model.specs.Rules.{signal_limit};
ghost use Rattle.blif_model.specs.Scanning.{IsWithin, word_of};
ghost use Rattle.blif_model.specs.Words.{mention_in};

use crate::BlifFault;
use crate::names::{NameTable, SIGNAL_LIMIT};
use crate::pieces::Span;
use crate::shapes::text_of;
use psl_base::{NoMemory, Place, place_of};
use std::alloc::Global;
use std::marker::Model;

/// The names of a model, numbered from 0 in the order of their first mention in a text; which of them are driven, and
/// the word that mentions each first.
#[derive(Drop)]
pub struct Signals<'a> {
    whole: &'a [u8],
    names: NameTable<'a>,
    driven: Vec<bool>,
    firsts: Vec<Span>,
}

impl<'a> Model for Signals<'a> {
    ghost use Rattle.std.specs.Prelude.{◌≡◌, ◌≤◌, length, map, All};
    ghost use Rattle.psl_base.specs.Places.{file_limit};
    ghost use Rattle.blif_model.specs.Names.{Named};
    ghost use Rattle.blif_model.specs.Rules.{signal_limit};
    ghost use Rattle.blif_model.specs.Scanning.{IsWithin, word_of};

    ghost Value = { Named };

    ghost view = { λ signals. record {
      whole = signals.whole.now;
      names = signals.names;
      driven = signals.driven.items;
      firsts = map (word_of signals.whole.now) signals.firsts.items;
    } };

    ghost invariant = { λ signals. (length signals.whole.now ≤ file_limit)
        × (length signals.driven.items ≡ length signals.names)
        × (length signals.firsts.items ≡ length signals.names)
        × (length signals.names ≤ signal_limit)
        × All (IsWithin signals.whole.now) signals.firsts.items };
}

impl<'a> Signals<'a> {
    /// No names of a text.
    pub fn new(alloc: Global, whole: &'a [u8]) -> Signals<'a>
        requires { length whole.now ≤ file_limit }
        ensures { result ≡ nothing_named whole.now }
    {
        Signals {
            whole,
            names: NameTable::new(alloc),
            driven: Vec::new(alloc),
            firsts: Vec::new(alloc),
        }
    }

    /// The text.
    pub fn whole(&self) -> &'a [u8]
        ensures is { result.now ≡ self.now.whole }
        ensures limit { length result.now ≤ file_limit }
    {
        self.whole
    }

    /// A name is mentioned, by a line that drives it or uses it: its number, or the fault of the mention.
    pub fn mention(&mut self, word: Span, drives: bool) -> Result<u32, BlifFault>
        requires { IsWithin self.old.whole word }
        ensures whole { self.new.whole ≡ self.old.whole }
        ensures named { OnOk result (self.new ≡ with_mention self.old (mention_in self.old.whole drives word)) }
        ensures number { IfOk result (λ number. number ≡ number_of self.new.names (word_of self.old.whole word)) }
        ensures faultless { OnOk result (mention_fault self.old (mention_in self.old.whole drives word) ≡ None) }
        ensures fault { IfErr result (λ fault. (fault ≡ BlifFault.NoMemory)
            ⊎ (mention_fault self.old (mention_in self.old.whole drives word) ≡ Some fault)) }
    {
        let name = text_of(self.whole, word);
        match self.names.find(name) {
            Some(number) => {
                if drives && self.driven[number] {
                    return Err(BlifFault::DrivenTwice(place_in(self.whole, word)));
                }
                self.driven[number] = self.driven[number] || drives;
                Ok(number as u32)
            }
            None => {
                let number = self.names.len();
                if number >= SIGNAL_LIMIT {
                    return Err(BlifFault::TooLarge(place_in(self.whole, word)));
                }
                self.add(word, drives)?;
                Ok(number as u32)
            }
        }
    }

    /// A name that is new.
    fn add(&mut self, word: Span, drives: bool) -> Result<(), NoMemory>
        requires within { IsWithin self.old.whole word }
        requires new { is_new self.old.names (word_of self.old.whole word).text ≡ true }
        requires room { length self.old.names < signal_limit }
        ensures whole { self.new.whole ≡ self.old.whole }
        ensures named { OnOk result (self.new ≡ with_mention self.old (mention_in self.old.whole drives word)) }
    {
        let name = text_of(self.whole, word);
        self.driven.push(drives)?;
        if self.firsts.push(word).is_err() {
            let _ = self.driven.pop();
            return Err(NoMemory);
        }
        match self.names.add(name) {
            Ok(()) => Ok(()),
            Err(refused) => {
                let _ = self.driven.pop();
                let _ = self.firsts.pop();
                Err(refused)
            }
        }
    }

    /// The names in order, which of them are driven, and the word that mentions each first.
    pub fn into_parts(self) -> (NameTable<'a>, Vec<bool>, Vec<Span>)
        ensures names { result.0 ≡ self.entry.names }
        ensures few { length result.0 ≤ signal_limit }
        ensures driven { result.1.items ≡ self.entry.driven }
        ensures firsts { map (word_of self.entry.whole) result.2.items ≡ self.entry.firsts }
        ensures within { All (IsWithin self.entry.whole) result.2.items }
    {
        let Signals {
            names,
            driven,
            firsts,
            ..
        } = self;
        (names, driven, firsts)
    }
}

/// The place of a word.
pub fn place_in(whole: &[u8], word: Span) -> Place
    requires limit { length whole.now ≤ file_limit }
    requires within { IsWithin whole.now word }
    ensures { result ≡ (word_of whole.now word).place }
{
    place_of(whole, word.at as usize)
}
