// Lines of a log, read one by one.
ghost use Rattle.std.specs.Prelude.{◌≡◌, ◌≤◌, ℕ, Bool, true, false, IfOk, IfErr, IfSome, IfNone};
ghost use Rattle.clauses.specs.Logs.LogEntry.{Forget};
ghost use Rattle.clause_text.specs.Lines.{entry_text, has_line};
ghost use Rattle.clauses.specs.Logs.{is_entry, entry_words, log_words};
ghost use Rattle.clauses.specs.Entries.{entry_of};
ghost use Rattle.clause_text.specs.declared.fault.TheConstants.{MOST_READ_WORDS};
ghost use Rattle.clause_text.specs.Adding.{Adds, AddsLine};
ghost use Rattle.clause_text.specs.Readings.{StandsFor, IsFirstFault};

use crate::lines::{LineRoom, next_line, read_entry};
use crate::{LogFault, MOST_READ_WORDS};
use clauses::{Entry, Log};
use psl_base::NoMemory;
use std::alloc::Global;

/// The log that lemma lines stand for, or the first fault of the text.
///
/// A lemma line is the lemma's literals and a 0, and its hints and a 0, with one blank between two of them and a line
/// feed at its end. Numbers are decimal, without leading zeros, and at most `MOST_VARIABLES`.
pub fn read_log(alloc: Global, bytes: &[u8]) -> Result<Log, LogFault>
    ensures log { IfOk result (StandsFor false bytes.now) }
    ensures fault { IfErr result (IsFirstFault false bytes.now) }
{
    read_lines(alloc, bytes, false)
}

/// The log that lemma lines and drop lines stand for, or the first fault of the text. A drop line is a `d`, a blank and
/// the number of the lemma.
pub fn read_log2(alloc: Global, bytes: &[u8]) -> Result<Log, LogFault>
    ensures log { IfOk result (StandsFor true bytes.now) }
    ensures fault { IfErr result (IsFirstFault true bytes.now) }
{
    read_lines(alloc, bytes, true)
}

fn read_lines(alloc: Global, bytes: &[u8], drops: bool) -> Result<Log, LogFault>
    ensures log { IfOk result (StandsFor drops bytes.now) }
    ensures fault { IfErr result (IsFirstFault drops bytes.now) }
{
    let mut log = Log::new(alloc);
    let mut room = LineRoom::new(alloc);
    let mut rest = bytes;
    let mut line: u64 = 1;
    while !rest.is_empty() {
        let Some((text, next)) = next_line(rest) else {
            return Err(LogFault::Truncated(line));
        };
        match add_line(&mut log, text, drops, &mut room)? {
            Added::Added => {}
            Added::NoEntry => return Err(LogFault::BadLine(line)),
            Added::TooLong => return Err(LogFault::TooLong(line)),
        }
        rest = next;
        line += 1;
    }
    Ok(log)
}

/// What became of a line.
#[derive(Clone, Copy, Drop)]
enum Added {
    /// It is an entry's, which is added.
    Added,
    /// It is no entry's.
    NoEntry,
    /// With its entry the words of the log would be too many.
    TooLong,
}

/// Adds the entry of a line.
fn add_line(log: &mut Log, line: &[u8], drops: bool, room: &mut LineRoom) -> Result<Added, NoMemory>
    requires { log_words log.old ≤ MOST_READ_WORDS }
    ensures { IfOk result (λ added. AddsLine drops log.old line.now added log.new) }
{
    let Some(entry) = read_entry(line, drops, room)? else {
        return Ok(Added::NoEntry);
    };
    let added = add(log, entry)?;
    Ok(added)
}

/// Adds an entry, unless the words would be too many.
fn add(log: &mut Log, entry: Entry<'_>) -> Result<Added, NoMemory>
    requires few { log_words log.old ≤ MOST_READ_WORDS }
    requires some { is_entry (entry_of entry) ≡ true }
    ensures { IfOk result (λ added. Adds log.old (entry_of entry.entry) added log.new) }
{
    if words_of(entry) > MOST_READ_WORDS - log.words() {
        return Ok(Added::TooLong);
    }
    log.push(entry)?;
    Ok(Added::Added)
}

fn words_of(entry: Entry<'_>) -> usize
    ensures { result ≡ entry_words (entry_of entry.entry) }
{
    match entry {
        Entry::Lemma { literals, hints } => literals.len() + hints.len() + 2,
        Entry::Forget(_) => 0,
    }
}
