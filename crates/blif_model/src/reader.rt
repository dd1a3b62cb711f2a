ghost use Rattle.std.specs.Prelude.{◌≡◌, ◌⊎◌, ◌≤◌, List, false, true, length, map, All, None, Some, Ok, IfOk, IfErr, IfSome, OnOk};
ghost use Rattle.std.specs.Option.{option_map};
ghost use Rattle.psl_base.specs.Places.{file_limit};
ghost use Rattle.psl_base.specs.Tokens.{PlacedToken};
ghost use Rattle.blif_model.specs.Known.{after_command, command_fault_in, flags_in, known_by_command, nothing_known};
ghost use Rattle.blif_model.specs.Known.{said_fault, said_with, text_of as text_of_known, with_closed, with_latch, with_line, with_table};
ghost use Rattle.blif_model.specs.Known.{latch_fault_of};
ghost use Rattle.blif_model.specs.Models.{mention_as};
ghost use Rattle.blif_model.specs.Names.{names_fault_in};
ghost use Rattle.blif_model.specs.Rules.{clocking_fault};
ghost use Rattle.blif_model.specs.Scanning.{IsWithin, word_of};
ghost use Rattle.blif_model.specs.Standing.{first_clocking};
ghost use Rattle.blif_model.specs.Words.{clocking_in, IsClockingWithin, IsLatchWithin, latch_in, table_mentions};

use crate::BlifFault;
use crate::command::Command;
use crate::file::OwnText;
use crate::flags::Flags;
use crate::head::head_fault;
use crate::line::{LineKind, ModelLine};
use crate::pieces::Span;
use crate::shapes::{Clocking, LatchWords, latch_of};
use crate::signals::Signals;
use crate::table::OpenTable;
use crate::tail::{clocking_fault, mention_all, mention_one, mention_table};
use crate::text::ModelText;
use blif_flattening::{Item, Model as FlatModel};
use netlist::Mark;
use psl_base::{Items, NoMemory};
use std::alloc::Global;
use std::marker::Model;

/// What is known of a model after some of its own lines.
pub struct Reader<'a> {
    signals: Signals<'a>,
    lines: Items<Item<ModelLine>>,
    table: Option<OpenTable>,
    clocking: Option<Clocking>,
    begun: bool,
    titled: bool,
    ended: bool,
    // The marks of a row on their way into the table.
    marks: Vec<Mark>,
}

impl<'a> Model for Reader<'a> {
    ghost use Rattle.std.specs.Prelude.{IfSome};
    ghost use Rattle.std.specs.Option.{option_map};
    ghost use Rattle.blif_model.specs.Known.{Known};
    ghost use Rattle.blif_model.specs.Words.{clocking_in, IsClockingWithin};

    ghost Value = { Known };

    ghost view = { λ reader. record {
      named = reader.signals;
      lines = reader.lines;
      table = reader.table;
      clocking = option_map (clocking_in reader.signals.whole) reader.clocking;
      begun = reader.begun;
      titled = reader.titled;
      ended = reader.ended;
    } };

    ghost invariant = { λ reader. IfSome reader.clocking (IsClockingWithin reader.signals.whole) };
}

// Written out, so that a caller's proof sees one call where a value is dropped.
impl Drop for Reader<'_> {
    fn drop(self) {
        let Reader {
            signals: _,
            lines: _,
            table: _,
            clocking: _,
            begun: _,
            titled: _,
            ended: _,
            marks: _,
        } = self;
    }
}

impl<'a> Reader<'a> {
    /// Nothing is known of a model.
    pub fn new(alloc: Global, whole: &'a [u8]) -> Reader<'a>
        requires { length whole.now ≤ file_limit }
        ensures { result ≡ nothing_known whole.now }
    {
        Reader {
            signals: Signals::new(alloc, whole),
            lines: Items::new(alloc),
            table: None,
            clocking: None,
            begun: false,
            titled: false,
            ended: false,
            marks: Vec::new(alloc),
        }
    }

    /// A command and its words, which of a row are all of its line.
    pub fn command(
        &mut self,
        alloc: Global,
        command: Command,
        head: Span,
        words: &[Span],
    ) -> Result<(), BlifFault>
        requires head { IsWithin self.old.named.whole head }
        requires words { All (IsWithin self.old.named.whole) words.now }
        ensures known { OnOk result (self.new ≡ known_by_command self.old command (map (word_of self.old.named.whole) words.now)) }
        ensures faultless { OnOk result (command_fault_in self.old command (word_of self.old.named.whole head) (map (word_of self.old.named.whole) words.now) ≡ None) }
        ensures fault { IfErr result (λ fault. (fault ≡ BlifFault.NoMemory)
            ⊎ (command_fault_in self.old command (word_of self.old.named.whole head) (map (word_of self.old.named.whole) words.now) ≡ Some fault)) }
    {
        let flags = self.flags();
        if let Some(fault) = head_fault(self.signals.whole(), &flags, command, head, words) {
            return Err(fault);
        }
        self.say(alloc, command, words)?;
        self.stand(command);
        Ok(())
    }

    /// What the lines so far have said of the form of the next.
    pub fn flags(&self) -> Flags
        ensures { result ≡ flags_in self.now }
    {
        let width = match &self.table {
            Some(table) => Some(table.width()),
            None => None,
        };
        Flags {
            width,
            begun: self.begun,
            titled: self.titled,
            ended: self.ended,
        }
    }

    /// A command stood there.
    fn stand(&mut self, command: Command)
        ensures { self.new ≡ after_command self.old command }
    {
        self.begun = true;
        match command {
            Command::Model => self.titled = true,
            Command::End => self.ended = true,
            Command::Inputs
            | Command::Outputs
            | Command::Names
            | Command::Latch
            | Command::Clock
            | Command::Unknown
            | Command::Row => {}
        }
    }

    /// What a command adds, or the first fault of its words.
    fn say(&mut self, alloc: Global, command: Command, words: &[Span]) -> Result<(), BlifFault>
        requires { All (IsWithin self.old.named.whole) words.now }
        ensures said { OnOk result (self.new ≡ said_with self.old command (map (word_of self.old.named.whole) words.now)) }
        ensures faultless { OnOk result (said_fault self.old command (map (word_of self.old.named.whole) words.now) ≡ None) }
        ensures fault { IfErr result (λ fault. (fault ≡ BlifFault.NoMemory)
            ⊎ (said_fault self.old command (map (word_of self.old.named.whole) words.now) ≡ Some fault)) }
    {
        match command {
            Command::Row => self.row(words),
            Command::Inputs => self.list(alloc, words, true, LineKind::Inputs),
            Command::Outputs => self.list(alloc, words, false, LineKind::Outputs),
            Command::Names => self.names(alloc, words),
            Command::Latch => self.latch(alloc, words),
            Command::Model | Command::Clock | Command::End | Command::Unknown => {
                self.close()?;
                Ok(())
            }
        }
    }

    /// No more rows follow of the table.
    fn close(&mut self) -> Result<(), NoMemory>
        ensures closed { OnOk result (self.new ≡ with_closed self.old) }
    {
        if let Some(table) = self.table.take() {
            self.lines.push(table.into_line())?;
        }
        Ok(())
    }

    /// A row of the table.
    fn row(&mut self, words: &[Span]) -> Result<(), BlifFault>
        requires { All (IsWithin self.old.named.whole) words.now }
        ensures said { OnOk result (self.new ≡ said_with self.old Command.Row (map (word_of self.old.named.whole) words.now)) }
        ensures faultless { OnOk result (said_fault self.old Command.Row (map (word_of self.old.named.whole) words.now) ≡ None) }
        ensures fault { IfErr result (λ fault. (fault ≡ BlifFault.NoMemory)
            ⊎ (said_fault self.old Command.Row (map (word_of self.old.named.whole) words.now) ≡ Some fault)) }
    {
        let whole = self.signals.whole();
        match &mut self.table {
            Some(table) => table.add(whole, words, &mut self.marks),
            None => Ok(()),
        }
    }

    /// A list of names that are all driven, or all used.
    fn list(
        &mut self,
        alloc: Global,
        words: &[Span],
        drives: bool,
        kind: LineKind,
    ) -> Result<(), BlifFault>
        requires { All (IsWithin self.old.named.whole) words.now }
        ensures said { OnOk result (self.new ≡ with_line self.old (map (mention_as drives) (map (word_of self.old.named.whole) words.now)) kind) }
        ensures faultless { OnOk result (names_fault_in self.old.named (map (mention_as drives) (map (word_of self.old.named.whole) words.now)) ≡ None) }
        ensures fault { IfErr result (λ fault. (fault ≡ BlifFault.NoMemory)
            ⊎ (names_fault_in self.old.named (map (mention_as drives) (map (word_of self.old.named.whole) words.now)) ≡ Some fault)) }
    {
        self.close()?;
        let mut mentions = Items::new(alloc);
        mention_all(&mut self.signals, words, drives, &mut mentions)?;
        self.lines.push(Item::Own(ModelLine { mentions, kind }))?;
        Ok(())
    }

    /// A table, which has no rows yet.
    fn names(&mut self, alloc: Global, words: &[Span]) -> Result<(), BlifFault>
        requires { All (IsWithin self.old.named.whole) words.now }
        ensures said { OnOk result (self.new ≡ said_with self.old Command.Names (map (word_of self.old.named.whole) words.now)) }
        ensures faultless { OnOk result (said_fault self.old Command.Names (map (word_of self.old.named.whole) words.now) ≡ None) }
        ensures fault { IfErr result (λ fault. (fault ≡ BlifFault.NoMemory)
            ⊎ (said_fault self.old Command.Names (map (word_of self.old.named.whole) words.now) ≡ Some fault)) }
    {
        match words.split_last() {
            Some((output, inputs)) => self.add_table(alloc, inputs, *output),
            None => {
                self.close()?;
                Ok(())
            }
        }
    }

    /// A table with these inputs and this output.
    fn add_table(&mut self, alloc: Global, inputs: &[Span], output: Span) -> Result<(), BlifFault>
        requires inputs { All (IsWithin self.old.named.whole) inputs.now }
        requires output { IsWithin self.old.named.whole output }
        ensures said { let mentions = table_mentions self.old.named.whole inputs.now output in
            OnOk result (self.new ≡ with_table self.old mentions (length inputs.now) (word_of self.old.named.whole output)) }
        ensures faultless { OnOk result (names_fault_in self.old.named (table_mentions self.old.named.whole inputs.now output) ≡ None) }
        ensures fault { IfErr result (λ fault. (fault ≡ BlifFault.NoMemory)
            ⊎ (names_fault_in self.old.named (table_mentions self.old.named.whole inputs.now output) ≡ Some fault)) }
    {
        self.close()?;
        let mut mentions = Items::new(alloc);
        mention_table(&mut self.signals, inputs, output, &mut mentions)?;
        self.table = Some(OpenTable::new(alloc, mentions, inputs.len(), output.at));
        Ok(())
    }

    /// A latch.
    fn latch(&mut self, alloc: Global, words: &[Span]) -> Result<(), BlifFault>
        requires { All (IsWithin self.old.named.whole) words.now }
        ensures said { OnOk result (self.new ≡ said_with self.old Command.Latch (map (word_of self.old.named.whole) words.now)) }
        ensures faultless { OnOk result (said_fault self.old Command.Latch (map (word_of self.old.named.whole) words.now) ≡ None) }
        ensures fault { IfErr result (λ fault. (fault ≡ BlifFault.NoMemory)
            ⊎ (said_fault self.old Command.Latch (map (word_of self.old.named.whole) words.now) ≡ Some fault)) }
    {
        match latch_of(self.signals.whole(), words) {
            Some(latch) => self.register(alloc, latch),
            None => {
                self.close()?;
                Ok(())
            }
        }
    }

    /// A latch with these parts.
    fn register(&mut self, alloc: Global, latch: LatchWords) -> Result<(), BlifFault>
        requires { IsLatchWithin self.old.named.whole latch }
        ensures said { OnOk result (self.new ≡ with_latch self.old (latch_in self.old.named.whole latch)) }
        ensures faultless { OnOk result (latch_fault_of self.old (latch_in self.old.named.whole latch) ≡ None) }
        ensures fault { IfErr result (λ fault. (fault ≡ BlifFault.NoMemory)
            ⊎ (latch_fault_of self.old (latch_in self.old.named.whole latch) ≡ Some fault)) }
    {
        self.close()?;
        let mut mentions = Items::new(alloc);
        mention_one(&mut self.signals, latch.input, false, &mut mentions)?;
        mention_one(&mut self.signals, latch.output, true, &mut mentions)?;
        self.clock(latch.clocking)?;
        self.lines.push(Item::Own(ModelLine {
            mentions,
            kind: LineKind::Latch(latch.init),
        }))?;
        Ok(())
    }

    /// The type and control of a latch, where it has them.
    fn clock(&mut self, clocking: Option<Clocking>) -> Result<(), BlifFault>
        requires { IfSome clocking (IsClockingWithin self.old.named.whole) }
        ensures clocking { OnOk result (self.new ≡ record self.old { clocking = first_clocking self.old.clocking (option_map (clocking_in self.old.named.whole) clocking) }) }
        ensures faultless { OnOk result (clocking_fault self.old.clocking (option_map (clocking_in self.old.named.whole) clocking) ≡ None) }
        ensures fault { IfErr result (λ fault. clocking_fault self.old.clocking (option_map (clocking_in self.old.named.whole) clocking) ≡ Some fault) }
    {
        let Some(clocking) = clocking else {
            return Ok(());
        };
        if let Some(fault) = clocking_fault(self.signals.whole(), self.clocking, clocking) {
            return Err(fault);
        }
        if self.clocking.is_none() {
            self.clocking = Some(clocking);
        }
        Ok(())
    }

    /// What the lines say, where these were all lines of the model. Names that nothing drives are not looked for.
    pub fn end(mut self) -> Result<OwnText<'a>, NoMemory>
        ensures text { IfOk result (λ own. own.text ≡ text_of_known self.entry) }
        ensures driven { IfOk result (λ own. own.driven ≡ self.entry.named.driven) }
        ensures firsts { IfOk result (λ own. map (word_of self.entry.named.whole) own.firsts ≡ self.entry.named.firsts) }
        ensures within { IfOk result (λ own. All (IsWithin self.entry.named.whole) own.firsts) }
    {
        self.close()?;
        let Reader {
            signals,
            lines,
            table: _,
            clocking: _,
            begun: _,
            titled: _,
            ended: _,
            marks: _,
        } = self;
        let (names, driven, firsts) = signals.into_parts();
        let count = names.len() as u32;
        let model = FlatModel {
            names: count,
            items: lines,
        };
        Ok(OwnText {
            text: ModelText { names, model },
            driven: Items::from_vec(driven),
            firsts: Items::from_vec(firsts),
        })
    }

    /// A `.model` stood there.
    pub fn title(&mut self) -> Result<(), NoMemory>
        ensures { OnOk result ((words : List PlacedToken) → self.new ≡ known_by_command self.old Command.Model words) }
    {
        self.close()?;
        self.stand(Command::Model);
        Ok(())
    }

    /// How many lines were read that say something of the model, but for the table whose rows may follow.
    pub fn len(&self) -> usize
        ensures { result ≡ length self.now.lines }
    {
        self.lines.len()
    }

    /// The text.
    pub fn whole(&self) -> &'a [u8]
        ensures is { result.now ≡ self.now.named.whole }
        ensures limit { length result.now ≤ file_limit }
    {
        self.signals.whole()
    }
}
