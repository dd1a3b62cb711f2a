ghost use Rattle.std.specs.Prelude.{◌≡◌, ℕ, List, ◌+◌, ◌<◌, ◌≤◌, ◌^◌, ◌∷◌, ◌==◌, ◌&&◌, not, true, false, nat_lt, length, cond, Some, All, OnOk, IfOk, IfErr, IfSome};
ghost use Rattle.psl_base.specs.Places.{file_limit};
ghost use Rattle.psl_base.specs.Tokens.{◌▸◌};
ghost use Rattle.vcd_reader.specs.Declarations.{Declared, Variable, variable_of, is_unread_type, is_size, of_signal, signal_at, nothing_declared, declared_with, with_signal, with_name, bits_of, bits_most};
ghost use Rattle.vcd_reader.specs.Labels.{place_of, is_new, is_code};
ghost use Rattle.vcd_reader.specs.Running.{defining, telling, nothing_held, Goes, Halts, PassesBits};
ghost use Rattle.vcd_reader.specs.Sampled.{AreAlike};
ghost use Rattle.vcd_reader.specs.Shapes.{shape_of, is_end};
ghost use Rattle.vcd_reader.specs.Standing.{Ready, WantsScopeType, WantsType, WantsSize, WantsCode, WantsReference, InReference};

use crate::VcdFault;
use crate::codes::CodeTable;
use crate::names::name;
use crate::sections::{comment, end, part, wanted};
use crate::shape::{self, Shape, shape_of};
use crate::signal::{Declaration, Signal};
use psl_base::{Cursor, NoMemory, Token, decimal};
use psl_tree::Names;
use std::alloc::Global;
use std::marker::Model;

/// How many bits all signals have together at most.
const MOST_BITS: u64 = 1_000_000;

/// How many bits one signal has at most.
const MOST_SIZE: u64 = 1_000_000;

/// What the definitions of a recording declare.
#[derive(Drop)]
pub struct Definitions<'a> {
    codes: CodeTable<'a>,
    signals: Vec<Signal>,
    names: Names,
    scopes: Vec<&'a [u8]>,
    bits: u32,
}

impl<'a> Model for Definitions<'a> {
    ghost use Rattle.std.specs.Prelude.{map};
    ghost use Rattle.vcd_reader.specs.Declarations.{Declared};
    ghost use Rattle.vcd_reader.specs.Kept.{IsKept};

    ghost Value = { Declared };

    ghost view = { λ found. record { codes = found.codes; signals = found.signals.items; names = found.names; scopes = map (λ scope. scope.now) found.scopes.items } };

    ghost invariant = { λ found. IsKept found.codes found.signals.items found.names found.bits };
}

impl<'a> Definitions<'a> {
    /// What the tokens declare, up to the end of the definitions. The tokens after it are left.
    pub fn read(alloc: Global, cursor: &mut Cursor<'a>) -> Result<Definitions<'a>, VcdFault>
        requires { length cursor.old.tokens ≤ file_limit }
        ensures ok { IfOk result (λ found. defining nothing_declared Ready cursor.old ≡ telling found (nothing_held (length found.codes)) Ready cursor.new) }
        ensures err { IfErr result (λ fault. Halts fault (defining nothing_declared Ready cursor.old)) }
    {
        let mut found = Definitions::new(alloc)?;
        loop {
            let ended = found.section(alloc, cursor)?;
            if ended {
                return Ok(found);
            }
        }
    }

    /// Nothing is declared yet.
    fn new(alloc: Global) -> Result<Definitions<'a>, NoMemory>
        ensures { IfOk result (λ found. found ≡ nothing_declared) }
    {
        Ok(Definitions {
            codes: CodeTable::new(alloc)?,
            signals: Vec::new(alloc),
            names: Names::new(alloc),
            scopes: Vec::new(alloc),
            bits: 0,
        })
    }

    /// The number of a code's signal, where a `$var` declares it.
    pub fn find(&self, code: &[u8]) -> Option<usize>
        ensures is { result ≡ place_of self.now.codes code.now }
        ensures within { IfSome result (λ number. number < length self.now.codes) }
    {
        self.codes.find(code)
    }

    /// How many signals there are.
    pub fn len(&self) -> usize
        ensures { result ≡ length self.now.codes }
    {
        self.codes.len()
    }

    /// Whether the values of a signal are left unread.
    pub fn unread(&self, number: usize) -> bool
        requires { number < length self.now.codes }
        ensures { result ≡ (signal_at self.now number).unread }
    {
        self.signals[number].unread
    }

    /// Whether a signal that is read has fewer bits.
    pub fn narrower(&self, number: usize, len: usize) -> bool
        requires { number < length self.now.codes }
        ensures { result ≡ (not (signal_at self.now number).unread && nat_lt (signal_at self.now number).size len) }
    {
        let signal = self.signals[number];
        !signal.unread && (signal.size as usize) < len
    }

    /// The names in order.
    pub fn into_names(self) -> Names
        ensures names { result ≡ self.entry.names }
        ensures within { All (λ name. name.signal < length self.entry.codes) result }
        ensures alike { AreAlike result }
    {
        let Definitions { names, .. } = self;
        names
    }

    /// Reads one section, and tells whether it is the end of the definitions.
    fn section(&mut self, alloc: Global, cursor: &mut Cursor<'a>) -> Result<bool, VcdFault>
        requires { length self.old.codes + length cursor.old.tokens ≤ file_limit }
        ensures ok { IfOk result (λ ended. defining self.old Ready cursor.old ≡ cond ended (telling self.new (nothing_held (length self.new.codes)) Ready cursor.new) (defining self.new Ready cursor.new)) }
        ensures err { IfErr result (λ fault. Halts fault (defining self.old Ready cursor.old)) }
        ensures fewer { OnOk result (length cursor.new.tokens < length cursor.old.tokens) }
        ensures room { OnOk result (length self.new.codes + length cursor.new.tokens ≤ length self.old.codes + length cursor.old.tokens) }
    {
        let token = wanted(cursor)?;
        match shape_of(token.text()) {
            Shape::Comment | Shape::Header => comment(cursor)?,
            Shape::Scope => self.scope(cursor)?,
            Shape::Upscope => self.upscope(&token, cursor)?,
            Shape::Var => self.variable(alloc, cursor)?,
            Shape::EndDefinitions => {
                end(cursor)?;
                return Ok(true);
            }
            Shape::End | Shape::Unknown => {
                return Err(VcdFault::UnknownKeyword(token.place()));
            }
            Shape::Dump
            | Shape::Time
            | Shape::Vector
            | Shape::Unread
            | Shape::Scalar
            | Shape::Other => return Err(VcdFault::ChangeBeforeDefinitionsEnd(token.place())),
        }
        Ok(false)
    }

    /// Reads the rest of a `$scope`.
    fn scope(&mut self, cursor: &mut Cursor<'a>) -> Result<(), VcdFault>
        ensures goes { Goes result (defining self.old WantsScopeType cursor.old) (defining self.new Ready cursor.new) }
        ensures fewer { OnOk result (length cursor.new.tokens < length cursor.old.tokens) }
        ensures codes { self.new.codes ≡ self.old.codes }
    {
        part(cursor)?;
        let name = part(cursor)?;
        end(cursor)?;
        self.scopes.push(name.text())?;
        Ok(())
    }

    /// Reads the rest of an `$upscope`.
    fn upscope(&mut self, upscope: &Token, cursor: &mut Cursor<'a>) -> Result<(), VcdFault>
        requires { shape_of upscope.now.text ≡ Shape.Upscope }
        ensures goes { Goes result (defining self.old Ready (upscope.now ▸ cursor.old)) (defining self.new Ready cursor.new) }
        ensures fewer { OnOk result (length cursor.new.tokens < length cursor.old.tokens) }
        ensures codes { self.new.codes ≡ self.old.codes }
    {
        let depth = self.scopes.len();
        if depth == 0 {
            return Err(VcdFault::ScopeNotOpen(upscope.place()));
        }
        end(cursor)?;
        self.scopes.truncate(depth - 1);
        Ok(())
    }

    /// Reads the rest of a `$var`.
    fn variable(&mut self, alloc: Global, cursor: &mut Cursor<'a>) -> Result<(), VcdFault>
        requires { length self.old.codes ≤ file_limit }
        ensures goes { Goes result (defining self.old WantsType cursor.old) (defining self.new Ready cursor.new) }
        ensures fewer { OnOk result (length cursor.new.tokens < length cursor.old.tokens) }
        ensures codes { OnOk result (length self.new.codes ≤ length self.old.codes + 1) }
    {
        let kind = part(cursor)?;
        let unread = unread_type(kind.text());
        let size = size(unread, cursor)?;
        let code = self.code(unread, size, cursor)?;
        let (text, end) = joined(alloc, cursor)?;
        self.declare(
            alloc,
            Declaration { unread, size, code },
            text.as_slice(),
            &end,
        )
    }

    /// The code of a `$var` with this size.
    fn code(&self, unread: bool, size: u32, cursor: &mut Cursor<'a>) -> Result<&'a [u8], VcdFault>
        ensures ok { IfOk result (λ code. defining self.now (WantsCode unread size) cursor.old ≡ defining self.now (WantsReference (record { unread = unread; size = size; code = code.now })) cursor.new) }
        ensures same { IfOk result (λ code. of_signal (λ signal. not (signal.size == size)) self.now (place_of self.now.codes code.now) ≡ false) }
        ensures err { IfErr result (λ fault. defining self.now (WantsCode unread size) cursor.old ≡ Err fault) }
        ensures fewer { OnOk result (length cursor.new.tokens < length cursor.old.tokens) }
    {
        let token = wanted(cursor)?;
        if shape::end(token.text()) || !code(token.text()) {
            return Err(VcdFault::BadVar(token.place()));
        }
        if self.differs(token.text(), size) {
            return Err(VcdFault::CodeSizeDiffers(token.place()));
        }
        Ok(token.text())
    }

    /// Whether a code is declared with another size.
    fn differs(&self, code: &[u8], size: u32) -> bool
        ensures { result ≡ of_signal (λ signal. not (signal.size == size)) self.now (place_of self.now.codes code.now) }
    {
        match self.codes.find(code) {
            None => false,
            Some(number) => self.signals[number].size != size,
        }
    }

    /// A `$var` more, which ends with this `$end`.
    fn declare(
        &mut self,
        alloc: Global,
        declaration: Declaration<'a>,
        text: &[u8],
        end: &Token,
    ) -> Result<(), VcdFault>
        requires few { length self.old.codes ≤ file_limit }
        requires size { is_size declaration.unread (Some declaration.size) ≡ true }
        requires same { of_signal (λ signal. not (signal.size == declaration.size)) self.old (place_of self.old.codes declaration.code.now) ≡ false }
        ensures ok { OnOk result (self.new ≡ declared_with self.old (variable_of declaration.entry) text.now) }
        ensures bits { OnOk result (nat_lt bits_most (bits_of self.new.signals) ≡ false) }
        ensures err { IfErr result (PassesBits end.now.place (declared_with self.old (variable_of declaration.entry) text.now)) }
    {
        match self.codes.find(declaration.code) {
            Some(number) => Ok(self.name(alloc, number, declaration.size, text)?),
            None => {
                let number = self.codes.len();
                self.signal(declaration, end)?;
                Ok(self.name(alloc, number, declaration.size, text)?)
            }
        }
    }

    /// A signal more, of a new code.
    fn signal(&mut self, declaration: Declaration<'a>, end: &Token) -> Result<(), VcdFault>
        requires new { is_new self.old.codes declaration.code.now ≡ true }
        requires few { length self.old.codes ≤ file_limit }
        requires size { is_size declaration.unread (Some declaration.size) ≡ true }
        ensures ok { OnOk result (self.new ≡ with_signal self.old (variable_of declaration.entry)) }
        ensures err { IfErr result (PassesBits end.now.place (with_signal self.old (variable_of declaration.entry))) }
    {
        let bits = u64::from(self.bits) + u64::from(declaration.size);
        if bits > MOST_BITS {
            return Err(VcdFault::TooManySignals(end.place()));
        }
        let signal = Signal {
            size: declaration.size,
            unread: declaration.unread,
        };
        let number = self.signals.len();
        self.signals.push(signal)?;
        if self.codes.add(declaration.code).is_err() {
            self.signals.truncate(number);
            return Err(VcdFault::NoMemory);
        }
        self.bits = bits as u32;
        Ok(())
    }

    /// A name more of a signal of this size, where that is read.
    fn name(&mut self, alloc: Global, number: usize, size: u32, text: &[u8]) -> Result<(), NoMemory>
        requires within { number < length self.old.signals }
        requires few { number < 2 ^ 32 }
        requires size { (signal_at self.old number).size ≡ size }
        ensures ok { OnOk result (self.new ≡ with_name self.old number size text.now) }
        ensures bits { bits_of self.new.signals ≤ bits_most }
    {
        if self.signals[number].unread {
            return Ok(());
        }
        let name = name(alloc, self.scopes.as_slice(), number as u32, size, text)?;
        self.names.push(name)?;
        Ok(())
    }
}

/// Whether a type is one whose values are not read.
fn unread_type(text: &[u8]) -> bool
    ensures { result ≡ is_unread_type text.now }
{
    shape::is(text, b"real") || shape::is(text, b"realtime") || shape::is(text, b"string")
}

/// Whether a text is made of bytes of a code.
fn code(text: &[u8]) -> bool
    ensures { result ≡ is_code text.now }
{
    text.iter().all(|byte| matches!(byte, b'!'..=b'~'))
}

/// The size of a `$var`.
fn size(unread: bool, cursor: &mut Cursor) -> Result<u32, VcdFault>
    ensures ok { IfOk result (λ size. (d : Declared) → defining d (WantsSize unread) cursor.old ≡ defining d (WantsCode unread size) cursor.new) }
    ensures is { IfOk result (λ size. is_size unread (Some size) ≡ true) }
    ensures err { IfErr result (λ fault. (d : Declared) → defining d (WantsSize unread) cursor.old ≡ Err fault) }
    ensures fewer { OnOk result (length cursor.new.tokens < length cursor.old.tokens) }
{
    let token = wanted(cursor)?;
    let Some(size) = decimal(MOST_SIZE, token.text()) else {
        return Err(VcdFault::BadVar(token.place()));
    };
    if !unread && size == 0 {
        return Err(VcdFault::BadVar(token.place()));
    }
    Ok(size as u32)
}

/// A reference, its tokens joined, and the `$end` behind it.
fn joined<'a>(alloc: Global, cursor: &mut Cursor<'a>) -> Result<(Vec<u8>, Token<'a>), VcdFault>
    ensures ok { IfOk result (λ found. (d : Declared) (v : Variable) → defining d (WantsReference v) cursor.old ≡ defining d (InReference v found.0.items) (found.1 ▸ cursor.new)) }
    ensures end { IfOk result (λ found. is_end found.1.text ≡ true) }
    ensures err { IfErr result (λ fault. (d : Declared) (v : Variable) → Halts fault (defining d (WantsReference v) cursor.old)) }
    ensures fewer { OnOk result (length cursor.new.tokens < length cursor.old.tokens) }
{
    let first = part(cursor)?;
    let mut text = Vec::from_slice(alloc, first.text())?;
    loop {
        let token = wanted(cursor)?;
        if shape::end(token.text()) {
            return Ok((text, token));
        }
        text.extend_from_slice(token.text())?;
    }
}
