ghost use Rattle.std.specs.Prelude.{◌≤◌, length};
ghost use Rattle.psl_grammar.specs.Parts as grammar;
ghost use Rattle.psl_grammar.specs.Parts.{Maybe, Sym};
ghost use Rattle.psl_grammar.specs.Productions as productions;
ghost use Rattle.psl_parser.specs.Pieces.{label, report, ReadsIndex, ReadsLabel, ReadsOptionalIndex, ReadsPath, ReadsRange, ReadsReport};
ghost use Rattle.psl_parser.specs.Steps.{state, Parses};

use crate::fault::Fault;
use crate::make;
use crate::parser::Parser;
use psl_base::Items;
use psl_grammar::{Count, Path};
use psl_lexer::{Token, TokenKind};
use std::alloc::Global;

impl Parser<'_> {
    /// `path ::= NAME { "." NAME }`
    pub fn path(&mut self, alloc: Global) -> Result<Path, Fault>
        ensures fewer { length self.new.rest.now ≤ length self.old.rest.now }
        ensures parsed { Parses ReadsPath (Sym grammar.Path) (state self.old) result (state self.new) }
    {
        let mut names = Items::new(alloc);
        let first = self.take(TokenKind::Name)?;
        make::add(alloc, &mut names, first)?;
        while self.at(TokenKind::Dot) {
            self.take(TokenKind::Dot)?;
            let name = self.take(TokenKind::Name)?;
            make::add(alloc, &mut names, name)?;
        }
        Ok(names)
    }

    /// `"[" NUMBER "]"`
    pub fn index(&mut self, alloc: Global) -> Result<Token, Fault>
        ensures fewer { length self.new.rest.now ≤ length self.old.rest.now }
        ensures parsed { Parses ReadsIndex productions.index (state self.old) result (state self.new) }
    {
        self.take(TokenKind::BracketOpen)?;
        let number = self.take(TokenKind::Number)?;
        self.take(TokenKind::BracketClose)?;
        make::copy(alloc, number)
    }

    /// `[ "[" NUMBER "]" ]`
    pub fn optional_index(&mut self, alloc: Global) -> Result<Option<Token>, Fault>
        ensures fewer { length self.new.rest.now ≤ length self.old.rest.now }
        ensures parsed { Parses ReadsOptionalIndex (Maybe productions.index) (state self.old) result (state self.new) }
    {
        if !self.at(TokenKind::BracketOpen) {
            return Ok(None);
        }
        let number = self.index(alloc)?;
        Ok(Some(number))
    }

    /// `"[" NUMBER ":" NUMBER "]"`
    pub fn range(&mut self, alloc: Global) -> Result<Count, Fault>
        ensures fewer { length self.new.rest.now ≤ length self.old.rest.now }
        ensures parsed { Parses ReadsRange productions.range (state self.old) result (state self.new) }
    {
        self.take(TokenKind::BracketOpen)?;
        let low = self.take(TokenKind::Number)?;
        self.take(TokenKind::Colon)?;
        let high = self.take(TokenKind::Number)?;
        self.take(TokenKind::BracketClose)?;
        make::between(alloc, low, high)
    }

    /// `[ NAME ":" ]`
    pub fn label(&mut self, alloc: Global) -> Result<Option<Token>, Fault>
        ensures fewer { length self.new.rest.now ≤ length self.old.rest.now }
        ensures parsed { Parses ReadsLabel label (state self.old) result (state self.new) }
    {
        if !self.at(TokenKind::Name) {
            return Ok(None);
        }
        let name = self.take(TokenKind::Name)?;
        self.take(TokenKind::Colon)?;
        let name = make::copy(alloc, name)?;
        Ok(Some(name))
    }

    /// `[ "report" STRING ]`
    pub fn report(&mut self, alloc: Global) -> Result<Option<Token>, Fault>
        ensures fewer { length self.new.rest.now ≤ length self.old.rest.now }
        ensures parsed { Parses ReadsReport report (state self.old) result (state self.new) }
    {
        if !self.at(TokenKind::Report) {
            return Ok(None);
        }
        self.take(TokenKind::Report)?;
        let text = self.take(TokenKind::Quoted)?;
        let text = make::copy(alloc, text)?;
        Ok(Some(text))
    }
}
