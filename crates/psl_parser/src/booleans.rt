ghost use Rattle.std.specs.Prelude.{◌≤◌, length};
ghost use Rattle.psl_grammar.specs.Parts as grammar;
ghost use Rattle.psl_parser.specs.Steps.{state, Parsed};

use crate::fault::Fault;
use crate::make::{Piece, infix, prefix};
use crate::operators::COMPARISONS;
use crate::parser::Parser;
use psl_lexer::TokenKind;
use std::alloc::Global;

impl Parser<'_> {
    /// `bor ::= band { "||" band }`
    #[cycle(parser)]
    pub fn bool_or(&mut self, alloc: Global) -> Result<Piece, Fault>
        ensures fewer { length self.new.rest.now ≤ length self.old.rest.now }
        ensures parsed { Parsed grammar.Bor (state self.old) result (state self.new) }
    {
        let mut left = self.bool_and(alloc)?;
        while self.at(TokenKind::OrOr) {
            let operator = self.take(TokenKind::OrOr)?;
            let right = self.bool_and(alloc)?;
            left = infix(alloc, left, operator, right)?;
        }
        Ok(left)
    }

    /// `band ::= bcmp { "&&" bcmp }`
    #[cycle(parser)]
    fn bool_and(&mut self, alloc: Global) -> Result<Piece, Fault>
        ensures fewer { length self.new.rest.now ≤ length self.old.rest.now }
        ensures parsed { Parsed grammar.Band (state self.old) result (state self.new) }
    {
        let mut left = self.bool_comparison(alloc)?;
        while self.at(TokenKind::AndAnd) {
            let operator = self.take(TokenKind::AndAnd)?;
            let right = self.bool_comparison(alloc)?;
            left = infix(alloc, left, operator, right)?;
        }
        Ok(left)
    }

    /// `bcmp ::= buna [ ( "==" | "!=" ) buna ]`
    #[cycle(parser)]
    fn bool_comparison(&mut self, alloc: Global) -> Result<Piece, Fault>
        ensures fewer { length self.new.rest.now ≤ length self.old.rest.now }
        ensures parsed { Parsed grammar.Bcmp (state self.old) result (state self.new) }
    {
        let left = self.bool_unary(alloc)?;
        if !self.at_any(&COMPARISONS) {
            return Ok(left);
        }
        let operator = self.take_any(&COMPARISONS)?;
        let right = self.bool_unary(alloc)?;
        infix(alloc, left, operator, right)
    }

    /// `buna ::= "!" buna | atom`
    #[cycle(parser)]
    fn bool_unary(&mut self, alloc: Global) -> Result<Piece, Fault>
        ensures fewer { length self.new.rest.now ≤ length self.old.rest.now }
        ensures parsed { Parsed grammar.Buna (state self.old) result (state self.new) }
    {
        if self.at(TokenKind::Not) {
            let operator = self.take(TokenKind::Not)?;
            let operand = self.bool_unary(alloc)?;
            prefix(alloc, operator, operand)
        } else {
            self.atom(alloc)
        }
    }
}
