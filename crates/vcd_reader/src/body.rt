ghost use Rattle.std.specs.Prelude.{◌≡◌, List, ◌+◌, ◌<◌, ◌≤◌, ◌^◌, [], ◌∷◌, drop, length, Some, Ok, OnOk, IfOk, IfErr};
ghost use Rattle.psl_base.specs.Tokens.{TokensLeft, ◌▸◌};
ghost use Rattle.vcd_reader.specs.Declarations.{Declared};
ghost use Rattle.vcd_reader.specs.Events.{is_last, falls};
ghost use Rattle.vcd_reader.specs.Rules.{sample_limit};
ghost use Rattle.vcd_reader.specs.Running.{Held, telling, nothing_held, changes_with, Goes, GoesOn, Halts};
ghost use Rattle.vcd_reader.specs.Shapes.{shape_of};
ghost use Rattle.vcd_reader.specs.Standing.{Ready, Telling, WantsUnreadCode, WantsVectorCode, time_of};

use crate::VcdFault;
use crate::changes::{Change, Changes};
use crate::definitions::Definitions;
use crate::sections::{comment, wanted};
use crate::shape::{Shape, shape_of};
use psl_base::{Cursor, NoMemory, Token, decimal};
use std::alloc::Global;
use std::marker::Model;

/// How many samples a recording has at most.
pub const SAMPLE_LIMIT: u32 = 1_000_000;

/// What is kept of a recording's times and changes while they are read: the changes of each signal, and how many bytes of
/// the text stand before the token with which each sample begins.
#[derive(Drop)]
pub struct Body {
    last: Option<u64>,
    samples: u32,
    in_block: bool,
    changes: Vec<Changes>,
    starts: Vec<u32>,
}

impl Model for Body {
    ghost use Rattle.std.specs.Prelude.{◌≤◌, All};
    ghost use Rattle.vcd_reader.specs.Rules.{sample_limit};
    ghost use Rattle.vcd_reader.specs.Running.{Held};

    ghost Value = { Held };

    ghost view = { λ body. record { told = record { last = body.last; samples = body.samples; in_block = body.in_block }; changes = body.changes.items; starts = body.starts.items } };

    ghost invariant = { λ body. (body.samples ≤ sample_limit) × All (λ list. All (λ change. change.sample ≤ body.samples) list) body.changes.items };
}

impl Body {
    /// What the tokens say, which stand after the definitions.
    pub fn read(alloc: Global, found: &Definitions, cursor: &mut Cursor) -> Result<Body, VcdFault>
        ensures ok { IfOk result (λ body. telling found.now (nothing_held (length found.now.codes)) Ready cursor.old ≡ Ok (record { declared = found.now; part = Telling body.told; changes = body.changes; starts = body.starts })) }
        ensures err { IfErr result (λ fault. Halts fault (telling found.now (nothing_held (length found.now.codes)) Ready cursor.old)) }
    {
        let mut body = Body::new(alloc, found.len(), cursor.room())?;
        while let Some(token) = cursor.next() {
            body.take(found, &token, cursor)?;
        }
        if body.in_block {
            return Err(VcdFault::EndsInside(cursor.end()));
        }
        Ok(body)
    }

    /// The changes of each signal, where samples begin, and how many there are.
    pub fn into_parts(self) -> (Vec<Changes>, Vec<u32>, u32)
        ensures changes { result.0.items ≡ self.changes }
        ensures starts { result.1.items ≡ self.starts }
        ensures samples { result.2 ≡ self.told.samples }
    {
        let Body {
            changes,
            starts,
            samples,
            ..
        } = self;
        (changes, starts, samples)
    }

    /// Nothing yet of so many signals, of which so many bytes tell.
    fn new(alloc: Global, signals: usize, bytes: usize) -> Result<Body, NoMemory>
        ensures { IfOk result (λ body. body ≡ nothing_held signals) }
    {
        let mut changes = Vec::new(alloc);
        let room = changes_expected(signals, bytes);
        for _ in 0..signals {
            changes.push(Changes::with_room(alloc, room))?;
        }
        Ok(Body {
            last: None,
            samples: 0,
            in_block: false,
            changes,
            starts: with_room(alloc, room.min(SAMPLE_LIMIT as usize)),
        })
    }

    /// Reads what begins with a token: a time, a change, a comment, or a bound of a block.
    fn take(
        &mut self,
        found: &Definitions,
        token: &Token,
        cursor: &mut Cursor,
    ) -> Result<(), VcdFault>
        requires signals { length self.old.changes ≡ length found.now.codes }
        ensures goes { Goes result (telling found.now self.old Ready (token.now ▸ cursor.old)) (telling found.now self.new Ready cursor.new) }
        ensures changes { length self.new.changes ≡ length self.old.changes }
        ensures fewer { OnOk result (length cursor.new.tokens ≤ length cursor.old.tokens) }
    {
        match shape_of(token.text()) {
            Shape::Scalar => self.scalar(found, token),
            Shape::Vector => self.vector(found, token, cursor),
            Shape::Time => self.time(token),
            Shape::Unread => unread(found, cursor),
            Shape::Comment => comment(cursor),
            Shape::Dump => self.begin_block(token),
            Shape::End => self.end_block(token),
            Shape::Other => Err(VcdFault::BadValue(token.place())),
            Shape::Unknown
            | Shape::Header
            | Shape::Scope
            | Shape::Upscope
            | Shape::Var
            | Shape::EndDefinitions => Err(VcdFault::UnknownKeyword(token.place())),
        }
    }

    /// A word that begins a block of changes.
    fn begin_block(&mut self, token: &Token) -> Result<(), VcdFault>
        requires { shape_of token.now.text ≡ Shape.Dump }
        ensures goes { (d : Declared) (left : TokensLeft) → GoesOn result (telling d self.old Ready (token.now ▸ left)) (telling d self.new Ready left) }
        ensures changes { self.new.changes ≡ self.old.changes }
    {
        if self.in_block {
            return Err(VcdFault::MissingEnd(token.place()));
        }
        self.in_block = true;
        Ok(())
    }

    /// The end of a block of changes.
    fn end_block(&mut self, token: &Token) -> Result<(), VcdFault>
        requires { shape_of token.now.text ≡ Shape.End }
        ensures goes { (d : Declared) (left : TokensLeft) → GoesOn result (telling d self.old Ready (token.now ▸ left)) (telling d self.new Ready left) }
        ensures changes { self.new.changes ≡ self.old.changes }
    {
        if !self.in_block {
            return Err(VcdFault::UnknownKeyword(token.place()));
        }
        self.in_block = false;
        Ok(())
    }

    /// A time: a higher one than the last begins a sample.
    fn time(&mut self, token: &Token) -> Result<(), VcdFault>
        requires { shape_of token.now.text ≡ Shape.Time }
        ensures goes { (d : Declared) (left : TokensLeft) → Goes result (telling d self.old Ready (token.now ▸ left)) (telling d self.new Ready left) }
        ensures changes { self.new.changes ≡ self.old.changes }
    {
        if self.in_block {
            return Err(VcdFault::MissingEnd(token.place()));
        }
        let Some(time) = time_of(token.text()) else {
            return Err(VcdFault::BadTime(token.place()));
        };
        if falls(self.last, time) {
            return Err(VcdFault::TimeFalls(token.place()));
        }
        if same(self.last, time) {
            return Ok(());
        }
        if self.samples >= SAMPLE_LIMIT {
            return Err(VcdFault::TooManySamples(token.place()));
        }
        self.starts.push(token.at() as u32)?;
        self.last = Some(time);
        self.samples += 1;
        Ok(())
    }

    /// A change of one letter.
    fn scalar(&mut self, found: &Definitions, token: &Token) -> Result<(), VcdFault>
        requires shape { shape_of token.now.text ≡ Shape.Scalar }
        requires signals { length self.old.changes ≡ length found.now.codes }
        ensures goes { (left : TokensLeft) → Goes result (telling found.now self.old Ready (token.now ▸ left)) (telling found.now self.new Ready left) }
        ensures changes { length self.new.changes ≡ length self.old.changes }
    {
        let Some(number) = found.find(tail(token.text())) else {
            return Err(VcdFault::CodeNotDeclared(token.place()));
        };
        Ok(self.change(found, number, token.at(), 1)?)
    }

    /// A change of a vector, whose code is the next token.
    fn vector(
        &mut self,
        found: &Definitions,
        token: &Token,
        cursor: &mut Cursor,
    ) -> Result<(), VcdFault>
        requires shape { shape_of token.now.text ≡ Shape.Vector }
        requires signals { length self.old.changes ≡ length found.now.codes }
        ensures goes { Goes result (telling found.now self.old (WantsVectorCode (token.now.at + 1) (drop 1 token.now.text)) cursor.old) (telling found.now self.new Ready cursor.new) }
        ensures changes { length self.new.changes ≡ length self.old.changes }
        ensures fewer { OnOk result (length cursor.new.tokens ≤ length cursor.old.tokens) }
    {
        let code = wanted(cursor)?;
        let Some(number) = found.find(code.text()) else {
            return Err(VcdFault::CodeNotDeclared(code.place()));
        };
        let letters = tail(token.text());
        if found.narrower(number, letters.len()) {
            return Err(VcdFault::VectorTooLong(code.place()));
        }
        Ok(self.change(found, number, token.at() + 1, letters.len())?)
    }

    /// A change of a signal, whose letters stand there in the text. It counts where the signal is read.
    fn change(
        &mut self,
        found: &Definitions,
        number: usize,
        start: usize,
        len: usize,
    ) -> Result<(), NoMemory>
        requires within { number < length found.now.codes }
        requires signals { length self.old.changes ≡ length found.now.codes }
        requires start { start < 2 ^ 32 }
        requires len { len < 2 ^ 32 }
        ensures ok { OnOk result (self.new ≡ record self.old { changes = changes_with found.now self.old.changes (record { sample = self.old.told.samples; start = start; len = len }) (Some number) }) }
        ensures changes { length self.new.changes ≡ length self.old.changes }
    {
        if found.unread(number) {
            return Ok(());
        }
        let change = Change {
            sample: self.samples,
            start: start as u32,
            len: len as u32,
        };
        let changes = &mut self.changes[number];
        changes.push(change)
    }
}

/// No numbers, with room for so many where memory is there for them.
fn with_room(alloc: Global, numbers: usize) -> Vec<u32>
    ensures { result.items ≡ [] }
{
    match Vec::with_capacity(alloc, numbers) {
        Ok(list) => list,
        Err(_) => Vec::new(alloc),
    }
}

/// How many changes of each signal, and samples, to make room for before they are read: as many as so many bytes tell of so many
/// signals, where all change alike. A change has two bytes or more and white space. Room for few is not worth its making.
fn changes_expected(signals: usize, bytes: usize) -> usize {
    match (bytes / 3).checked_div(signals) {
        Some(changes) if changes >= 1024 => changes,
        _ => 0,
    }
}

/// The code of a change that is not read.
fn unread(found: &Definitions, cursor: &mut Cursor) -> Result<(), VcdFault>
    ensures goes { (held : Held) → GoesOn result (telling found.now held WantsUnreadCode cursor.old) (telling found.now held Ready cursor.new) }
    ensures fewer { OnOk result (length cursor.new.tokens ≤ length cursor.old.tokens) }
{
    let code = wanted(cursor)?;
    if found.find(code.text()).is_none() {
        return Err(VcdFault::CodeNotDeclared(code.place()));
    }
    Ok(())
}

/// The number behind a text's first byte, which is `#`.
pub fn time_of(text: &[u8]) -> Option<u64>
    ensures { result ≡ time_of text.now }
{
    decimal(u64::MAX, tail(text))
}

/// What stands behind a text's first byte.
fn tail(text: &[u8]) -> &[u8]
    ensures { result.now ≡ drop 1 text.now }
{
    match text {
        [] => text,
        [_, rest @ ..] => rest,
    }
}

/// Whether a time is lower than the last one, if there is one.
fn falls(last: Option<u64>, time: u64) -> bool
    ensures { result ≡ falls last time }
{
    match last {
        None => false,
        Some(last) => time < last,
    }
}

/// Whether a time is the last one.
fn same(last: Option<u64>, time: u64) -> bool
    ensures { result ≡ is_last last time }
{
    match last {
        None => false,
        Some(last) => last == time,
    }
}
