ghost use Rattle.std.specs.Prelude.{◌≤◌, length};
ghost use Rattle.psl_grammar.specs.Parts as grammar;
ghost use Rattle.psl_parser.specs.Steps.{state, Parsed};

use crate::fault::Fault;
use crate::make::{Piece, infix, prefix};
use crate::operators::{ABORTS, IMPLICATIONS, SUFFIXES, UNTIL};
use crate::parser::Parser;
use psl_lexer::TokenKind;
use std::alloc::Global;

impl Parser<'_> {
    /// `prop ::= ( "always" | "never" ) prop | imp`
    #[cycle(parser)]
    pub fn property(&mut self, alloc: Global) -> Result<Piece, Fault>
        ensures fewer { length self.new.rest.now ≤ length self.old.rest.now }
        ensures parsed { Parsed grammar.Prop (state self.old) result (state self.new) }
    {
        if self.at_any(&[TokenKind::Always, TokenKind::Never]) {
            let operator = self.take_any(&[TokenKind::Always, TokenKind::Never])?;
            let operand = self.property(alloc)?;
            prefix(alloc, operator, operand)
        } else {
            self.implication(alloc)
        }
    }

    /// `imp ::= suf [ ( "->" | "<->" ) impright ]`, where `impright` is written as `prop` is.
    #[cycle(parser)]
    fn implication(&mut self, alloc: Global) -> Result<Piece, Fault>
        ensures fewer { length self.new.rest.now ≤ length self.old.rest.now }
        ensures parsed { Parsed grammar.Imp (state self.old) result (state self.new) }
    {
        let left = self.suffix_implication(alloc)?;
        if !self.at_any(&IMPLICATIONS) {
            return Ok(left);
        }
        let operator = self.take_any(&IMPLICATIONS)?;
        let right = self.property(alloc)?;
        infix(alloc, left, operator, right)
    }

    /// `suf ::= bnd [ ( "|->" | "|=>" ) suf ]`
    #[cycle(parser)]
    fn suffix_implication(&mut self, alloc: Global) -> Result<Piece, Fault>
        ensures fewer { length self.new.rest.now ≤ length self.old.rest.now }
        ensures parsed { Parsed grammar.Suf (state self.old) result (state self.new) }
    {
        let left = self.bounded(alloc)?;
        if !self.at_any(&SUFFIXES) {
            return Ok(left);
        }
        let operator = self.take_any(&SUFFIXES)?;
        let right = self.suffix_implication(alloc)?;
        infix(alloc, left, operator, right)
    }

    /// `bnd ::= occ [ UNTIL bnd ]`
    #[cycle(parser)]
    fn bounded(&mut self, alloc: Global) -> Result<Piece, Fault>
        ensures fewer { length self.new.rest.now ≤ length self.old.rest.now }
        ensures parsed { Parsed grammar.Bnd (state self.old) result (state self.new) }
    {
        let left = self.occurrence(alloc)?;
        if !self.at_any(&UNTIL) {
            return Ok(left);
        }
        let operator = self.take_any(&UNTIL)?;
        let right = self.bounded(alloc)?;
        infix(alloc, left, operator, right)
    }

    /// `occ ::= ( "next" | "next!" | "eventually!" ) occ | trm`
    #[cycle(parser)]
    fn occurrence(&mut self, alloc: Global) -> Result<Piece, Fault>
        ensures fewer { length self.new.rest.now ≤ length self.old.rest.now }
        ensures parsed { Parsed grammar.Occ (state self.old) result (state self.new) }
    {
        if self.at_occurrence() {
            let operator = self.take_any(&[
                TokenKind::Next,
                TokenKind::NextStrong,
                TokenKind::EventuallyStrong,
            ])?;
            let operand = self.occurrence(alloc)?;
            prefix(alloc, operator, operand)
        } else {
            self.termination(alloc)
        }
    }

    /// `trm ::= clk { ( "abort" | "async_abort" | "sync_abort" ) or }`
    #[cycle(parser)]
    fn termination(&mut self, alloc: Global) -> Result<Piece, Fault>
        ensures fewer { length self.new.rest.now ≤ length self.old.rest.now }
        ensures parsed { Parsed grammar.Trm (state self.old) result (state self.new) }
    {
        let mut left = self.clocked(alloc)?;
        while self.at_any(&ABORTS) {
            let operator = self.take_any(&ABORTS)?;
            let right = self.disjunction(alloc)?;
            left = infix(alloc, left, operator, right)?;
        }
        Ok(left)
    }

    /// `clk ::= or [ post { post } [ "!" ] ]`
    #[cycle(parser)]
    fn clocked(&mut self, alloc: Global) -> Result<Piece, Fault>
        ensures fewer { length self.new.rest.now ≤ length self.old.rest.now }
        ensures parsed { Parsed grammar.Clk (state self.old) result (state self.new) }
    {
        let operand = self.disjunction(alloc)?;
        if !self.at_post() {
            return Ok(operand);
        }
        let operand = self.posts(alloc, operand)?;
        self.strength(alloc, operand)
    }
}
