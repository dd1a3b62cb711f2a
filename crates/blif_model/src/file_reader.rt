ghost use Rattle.std.specs.Prelude.{◌≡◌, ℕ, ◌⊎◌, ◌≤◌, ◌∷◌, ◌++◌, List, [], true, length, map, All, None, Some, IfOk, IfErr, OnOk};
ghost use Rattle.psl_base.specs.Places.{file_limit};
ghost use Rattle.psl_base.specs.Tokens.{PlacedToken};
ghost use Rattle.blif_model.specs.FileKnown.{begin_fault_in, file_fault_in, file_known_after, IsModelWithin, known_begun, known_over, spans_of, known_own};
ghost use Rattle.blif_model.specs.FileKnown.{known_placed, no_file_known, part_in, parts_known, titled_by};
ghost use Rattle.blif_model.specs.Files.{clocks_by, file_command_of, is_repeated};
ghost use Rattle.blif_model.specs.Known.{command_fault_in};
ghost use Rattle.blif_model.specs.Names.{is_new};
ghost use Rattle.blif_model.specs.Scanning.{IsWithin, word_of};

use crate::BlifFault;
use crate::command::{Command, command_of};
use crate::file::{FileCommand, FileModel, FileModels, FileText, PlacementLine, Spans};
use crate::head::is_bad_model;
use crate::names::NameTable;
use crate::pieces::Span;
use crate::reader::Reader;
use crate::shapes::text_of;
use crate::signals::place_in;
use psl_base::{Items, NoMemory};
use std::alloc::Global;
use std::marker::Model;

/// What is known of a text of several models after some of its lines.
#[derive(Drop)]
pub struct FileReader<'a> {
    earlier: FileModels<'a>,
    titles: NameTable<'a>,
    title: Option<Span>,
    own: Reader<'a>,
    clocks: Spans,
    placements: Items<PlacementLine>,
}

impl<'a> Model for FileReader<'a> {
    ghost use Rattle.std.specs.Prelude.{map, All, IfSome};
    ghost use Rattle.std.specs.Option.{option_map};
    ghost use Rattle.blif_model.specs.FileKnown.{FileKnown, IsModelWithin, IsPlacementWithin, part_in, placing_in};
    ghost use Rattle.blif_model.specs.Scanning.{IsWithin, word_of};

    ghost Value = { FileKnown };

    ghost view = { λ reader. record {
      earlier = map (part_in reader.own.named.whole) reader.earlier;
      titles = reader.titles;
      title = option_map (word_of reader.own.named.whole) reader.title;
      own = reader.own;
      clocks = map (word_of reader.own.named.whole) reader.clocks;
      placings = map (placing_in reader.own.named.whole) reader.placements;
    } };

    ghost invariant = { λ reader. All (IsModelWithin reader.own.named.whole) reader.earlier
        × IfSome reader.title (IsWithin reader.own.named.whole)
        × All (IsWithin reader.own.named.whole) reader.clocks
        × All (IsPlacementWithin reader.own.named.whole) reader.placements };
}

impl<'a> FileReader<'a> {
    /// Nothing is known of a text.
    pub fn new(alloc: Global, whole: &'a [u8]) -> FileReader<'a>
        requires { length whole.now ≤ file_limit }
        ensures { result ≡ no_file_known whole.now }
    {
        FileReader {
            earlier: Items::new(alloc),
            titles: NameTable::new(alloc),
            title: None,
            own: Reader::new(alloc, whole),
            clocks: Items::new(alloc),
            placements: Items::new(alloc),
        }
    }

    /// What is known with a line more that has these words, or its first fault.
    pub fn take(self, alloc: Global, words: &[Span]) -> Result<FileReader<'a>, BlifFault>
        requires { All (IsWithin self.own.named.whole) words.now }
        ensures known { IfOk result (λ new. new ≡ file_known_after self.entry (map (word_of self.entry.own.named.whole) words.now)) }
        ensures faultless { OnOk result (file_fault_in self.entry (map (word_of self.entry.own.named.whole) words.now) ≡ None) }
        ensures fault { IfErr result (λ fault. (fault ≡ BlifFault.NoMemory)
            ⊎ (file_fault_in self.entry (map (word_of self.entry.own.named.whole) words.now) ≡ Some fault)) }
    {
        let [head, rest @ ..] = words else {
            return Ok(self);
        };
        match file_command_of(text_of(self.own.whole(), *head)) {
            FileCommand::Begin => self.begin(alloc, *head, rest),
            FileCommand::Place => self.place(alloc, *head, rest),
            FileCommand::Own(command) => {
                self.say(alloc, command, *head, spans_of(command, words, rest))
            }
        }
    }

    /// A model begins.
    fn begin(self, alloc: Global, head: Span, words: &[Span]) -> Result<FileReader<'a>, BlifFault>
        requires head { IsWithin self.own.named.whole head }
        requires words { All (IsWithin self.own.named.whole) words.now }
        ensures known { IfOk result (λ new. new ≡ known_begun self.entry (map (word_of self.entry.own.named.whole) words.now)) }
        ensures faultless { OnOk result (begin_fault_in self.entry (word_of self.entry.own.named.whole head) (map (word_of self.entry.own.named.whole) words.now) ≡ None) }
        ensures fault { IfErr result (λ fault. (fault ≡ BlifFault.NoMemory)
            ⊎ (begin_fault_in self.entry (word_of self.entry.own.named.whole head) (map (word_of self.entry.own.named.whole) words.now) ≡ Some fault)) }
    {
        if let Some(fault) = self.begin_fault(head, words) {
            return Err(fault);
        }
        let [word, ..] = words else {
            return Err(BlifFault::BadModel(place_in(self.own.whole(), head)));
        };
        match self.title {
            None => Ok(self.name(*word)?),
            Some(_) => Ok(self.end(alloc)?.name(*word)?),
        }
    }

    /// The fault at a `.model`, if it has one.
    fn begin_fault(&self, head: Span, words: &[Span]) -> Option<BlifFault>
        requires head { IsWithin self.now.own.named.whole head }
        requires words { All (IsWithin self.now.own.named.whole) words.now }
        ensures { result ≡ begin_fault_in self.now (word_of self.now.own.named.whole head) (map (word_of self.now.own.named.whole) words.now) }
    {
        if is_bad_model(&self.own.flags(), words) {
            return Some(BlifFault::BadModel(place_in(self.own.whole(), head)));
        }
        if self.is_repeated(words) {
            return Some(BlifFault::SecondModel(place_in(self.own.whole(), head)));
        }
        None
    }

    /// Whether the first of some words is the name of a model that stood before.
    fn is_repeated(&self, words: &[Span]) -> bool
        requires { All (IsWithin self.now.own.named.whole) words.now }
        ensures { result ≡ is_repeated self.now.titles (map (word_of self.now.own.named.whole) words.now) }
    {
        match words {
            [word, ..] => self.titles.find(text_of(self.own.whole(), *word)).is_some(),
            [] => false,
        }
    }

    /// The model that is read has a name.
    fn name(mut self, word: Span) -> Result<FileReader<'a>, NoMemory>
        requires word { IsWithin self.own.named.whole word }
        requires new { is_new self.titles (word_of self.own.named.whole word).text ≡ true }
        ensures { IfOk result (λ new. (words : List PlacedToken) → new ≡ titled_by self.entry (word_of self.entry.own.named.whole word ∷ words)) }
    {
        let whole = self.own.whole();
        self.titles.add(text_of(whole, word))?;
        self.title = Some(word);
        self.own.title()?;
        Ok(self)
    }

    /// The model that is read is over.
    fn end(self, alloc: Global) -> Result<FileReader<'a>, NoMemory>
        ensures { IfOk result (λ new. new ≡ known_over self.entry) }
    {
        let FileReader {
            mut earlier,
            titles,
            title,
            own,
            clocks,
            placements,
        } = self;
        let whole = own.whole();
        let own = own.end()?;
        earlier.push(FileModel {
            title,
            own,
            clocks,
            placements,
        })?;
        Ok(FileReader {
            earlier,
            titles,
            title: None,
            own: Reader::new(alloc, whole),
            clocks: Items::new(alloc),
            placements: Items::new(alloc),
        })
    }

    /// A model is placed in the one that is read.
    fn place(
        mut self,
        alloc: Global,
        head: Span,
        words: &[Span],
    ) -> Result<FileReader<'a>, BlifFault>
        requires head { IsWithin self.own.named.whole head }
        requires words { All (IsWithin self.own.named.whole) words.now }
        ensures known { IfOk result (λ new. new ≡ known_placed self.entry (word_of self.entry.own.named.whole head) (map (word_of self.entry.own.named.whole) words.now)) }
        ensures faultless { OnOk result (command_fault_in self.entry.own Command.Clock (word_of self.entry.own.named.whole head) [] ≡ None) }
        ensures fault { IfErr result (λ fault. (fault ≡ BlifFault.NoMemory)
            ⊎ (command_fault_in self.entry.own Command.Clock (word_of self.entry.own.named.whole head) [] ≡ Some fault)) }
    {
        self.own.command(alloc, Command::Clock, head, &[])?;
        let before = self.own.len();
        self.placements.push(PlacementLine {
            head,
            words: Items::from_slice(alloc, words)?,
            before,
        })?;
        Ok(self)
    }

    /// A line of the model that is read.
    fn say(
        mut self,
        alloc: Global,
        command: Command,
        head: Span,
        words: &[Span],
    ) -> Result<FileReader<'a>, BlifFault>
        requires head { IsWithin self.own.named.whole head }
        requires words { All (IsWithin self.own.named.whole) words.now }
        ensures known { IfOk result (λ new. new ≡ known_own self.entry command (map (word_of self.entry.own.named.whole) words.now)) }
        ensures faultless { OnOk result (command_fault_in self.entry.own command (word_of self.entry.own.named.whole head) (map (word_of self.entry.own.named.whole) words.now) ≡ None) }
        ensures fault { IfErr result (λ fault. (fault ≡ BlifFault.NoMemory)
            ⊎ (command_fault_in self.entry.own command (word_of self.entry.own.named.whole head) (map (word_of self.entry.own.named.whole) words.now) ≡ Some fault)) }
    {
        self.own.command(alloc, command, head, words)?;
        add_clocks(&mut self.clocks, command, words)?;
        Ok(self)
    }

    /// The models and their names, where these were all lines of the text.
    pub fn finish(self, alloc: Global) -> Result<FileText<'a>, NoMemory>
        ensures models { IfOk result (λ text. map (part_in self.entry.own.named.whole) text.models ≡ parts_known self.entry) }
        ensures titles { IfOk result (λ text. text.titles ≡ self.entry.titles) }
        ensures within { IfOk result (λ text. All (IsModelWithin self.entry.own.named.whole) text.models) }
    {
        let FileReader {
            earlier,
            titles,
            ..
        } = self.end(alloc)?;
        Ok(FileText {
            titles,
            models: earlier,
        })
    }
}

/// The names of a `.clock` come behind others.
fn add_clocks(clocks: &mut Spans, command: Command, words: &[Span]) -> Result<(), NoMemory>
    ensures added { (whole : List ℕ) → OnOk result (map (word_of whole) clocks.new
        ≡ map (word_of whole) clocks.old ++ clocks_by command (map (word_of whole) words.now)) }
    ensures within { (whole : List ℕ) → All (IsWithin whole) clocks.old → All (IsWithin whole) words.now
        → OnOk result (All (IsWithin whole) clocks.new) }
{
    match command {
        Command::Clock => add_words(clocks, words),
        Command::Model
        | Command::Inputs
        | Command::Outputs
        | Command::Names
        | Command::Latch
        | Command::End
        | Command::Unknown
        | Command::Row => Ok(()),
    }
}

/// Words come behind others.
fn add_words(all: &mut Spans, words: &[Span]) -> Result<(), NoMemory>
    ensures added { (whole : List ℕ) → OnOk result (map (word_of whole) all.new
        ≡ map (word_of whole) all.old ++ map (word_of whole) words.now) }
    ensures within { (whole : List ℕ) → All (IsWithin whole) all.old → All (IsWithin whole) words.now
        → OnOk result (All (IsWithin whole) all.new) }
{
    for word in words {
        all.push(*word)?;
    }
    Ok(())
}

/// The words that belong to a command: those behind it, or all of a row.
fn spans_of<'b>(command: Command, words: &'b [Span], rest: &'b [Span]) -> &'b [Span]
    ensures { result.now ≡ spans_of command words.now rest.now }
{
    match command {
        Command::Row => words,
        Command::Model
        | Command::Inputs
        | Command::Outputs
        | Command::Names
        | Command::Latch
        | Command::Clock
        | Command::End
        | Command::Unknown => rest,
    }
}

/// What a line is by its first word.
fn file_command_of(word: &[u8]) -> FileCommand
    ensures { result ≡ file_command_of word.now }
{
    if word == ".model".as_bytes() {
        return FileCommand::Begin;
    }
    if word == ".subckt".as_bytes() {
        return FileCommand::Place;
    }
    FileCommand::Own(command_of(word))
}
