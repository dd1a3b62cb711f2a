ghost use Rattle.std.specs.Prelude.{◌≡◌, ◌⊎◌, ◌≤◌, ◌∷◌, ◌++◌, [], true, length, map, All, None, Some, IfOk, IfErr, IfSome, OnOk};
ghost use Rattle.std.specs.Option.{option_map};
ghost use Rattle.psl_base.specs.Places.{file_limit};
ghost use Rattle.blif_model.specs.Known.{Opened, first_of, line_of_table, row_fault_on, row_on};
ghost use Rattle.blif_model.specs.Scanning.{IsWithin, word_of};
ghost use Rattle.blif_model.specs.Shapes.{mark_of, row_of};
ghost use Rattle.blif_model.specs.Words.{row_with};

use crate::BlifFault;
use crate::line::{LineKind, ModelLine, TableRows};
use crate::pieces::Span;
use crate::shapes::{are_marks, is_bit, text_of};
use crate::tail::{is_one, output_fault};
use blif_flattening::Item;
use netlist::{Mark, Rows};
use psl_base::{NoMemory, Numbers};
use std::alloc::Global;
use std::marker::Model;

/// The table whose rows may follow.
#[derive(Drop)]
pub struct OpenTable {
    mentions: Numbers,
    width: usize,
    rows: TableRows,
}

impl Model for OpenTable {
    ghost use Rattle.std.specs.Prelude.{◌≡◌, length, All};
    ghost use Rattle.blif_model.specs.Known.{Opened};

    ghost Value = { Opened };

    ghost view = { λ table. record {
      mentions = table.mentions;
      width = table.width;
      rows = table.rows.rows;
      value = table.rows.value;
      output_at = table.rows.output_at;
    } };

    ghost invariant = { λ table. All (λ row. length row ≡ table.width) table.rows.rows };
}

impl OpenTable {
    /// A table without rows, by the numbers of its names and how many inputs it has, and where the name of its output
    /// stands. It takes no memory.
    pub fn new(alloc: Global, mentions: Numbers, width: usize, output_at: u32) -> OpenTable
        ensures { result ≡ record { mentions = mentions; width = width; rows = []; value = true; output_at = output_at } }
    {
        let rows = TableRows {
            rows: Rows::new(alloc),
            value: true,
            output_at,
        };
        OpenTable {
            mentions,
            width,
            rows,
        }
    }

    /// How many inputs it has.
    pub fn width(&self) -> usize
        ensures { result ≡ self.now.width }
    {
        self.width
    }

    /// The line of the table, behind which no more rows come.
    pub fn into_line(self) -> Item<ModelLine>
        ensures { result ≡ line_of_table self }
    {
        let OpenTable { mentions, rows, .. } = self;
        Item::Own(ModelLine {
            mentions,
            kind: LineKind::Table(rows),
        })
    }

    /// Adds the row that words are, or answers with its fault. Words that are no row add nothing. The marks of the row
    /// pass through a list, in place of what was there.
    pub fn add(
        &mut self,
        whole: &[u8],
        words: &[Span],
        marks: &mut Vec<Mark>,
    ) -> Result<(), BlifFault>
        requires limit { length whole.now ≤ file_limit }
        requires words { All (IsWithin whole.now) words.now }
        ensures added { OnOk result (self.new ≡ row_on (map (word_of whole.now) words.now) self.old) }
        ensures faultless { OnOk result (row_fault_on (Some self.old) (map (word_of whole.now) words.now) ≡ None) }
        ensures fault { IfErr result (λ fault. (fault ≡ BlifFault.NoMemory)
            ⊎ (row_fault_on (Some self.old) (map (word_of whole.now) words.now) ≡ Some fault)) }
    {
        let Some(output) = row_in(whole, words, self.width, marks)? else {
            return Ok(());
        };
        if let Some(fault) = output_fault(whole, self.first_output(), output) {
            return Err(fault);
        }
        self.rows.rows.push(marks)?;
        self.rows.value = is_one(text_of(whole, output));
        Ok(())
    }

    /// The output of the first row.
    fn first_output(&self) -> Option<bool>
        ensures { result ≡ first_of self.now }
    {
        if self.rows.rows.len() >= 1 {
            return Some(self.rows.value);
        }
        None
    }
}

/// The row that words are in a table with so many inputs: its marks come into a list, in place of what was there, and
/// its output is the answer.
fn row_in(
    whole: &[u8],
    words: &[Span],
    width: usize,
    marks: &mut Vec<Mark>,
) -> Result<Option<Span>, NoMemory>
    requires { All (IsWithin whole.now) words.now }
    ensures row { IfOk result (λ output. option_map (row_with whole.now marks.new.items) output ≡ row_of width (map (word_of whole.now) words.now)) }
    ensures within { IfOk result (λ output. IfSome output (λ span. IsWithin whole.now span × (length marks.new.items ≡ width))) }
{
    marks.clear();
    match words {
        [output] if width == 0 && is_bit(text_of(whole, *output)) => Ok(Some(*output)),
        [word, output]
            if width > 0
                && are_marks(text_of(whole, *word), width)
                && is_bit(text_of(whole, *output)) => {
            push_marks(text_of(whole, *word), marks)?;
            Ok(Some(*output))
        }
        _ => Ok(None),
    }
}

/// The marks that bytes stand for, behind those that are there.
fn push_marks(text: &[u8], marks: &mut Vec<Mark>) -> Result<(), NoMemory>
    ensures { OnOk result (marks.new.items ≡ marks.old.items ++ map mark_of text.now) }
{
    for byte in text {
        marks.push(mark_of(*byte))?;
    }
    Ok(())
}

/// The mark that a byte stands for.
fn mark_of(byte: u8) -> Mark
    ensures { result ≡ mark_of byte }
{
    match byte {
        b'0' => Mark::Zero,
        b'1' => Mark::One,
        _ => Mark::Any,
    }
}
