ghost use Rattle.std.specs.Prelude.{◌≤◌, length};
ghost use Rattle.psl_grammar.specs.Parts as grammar;
ghost use Rattle.psl_grammar.specs.Productions as productions;
ghost use Rattle.psl_grammar.specs.Trees.{atom};
ghost use Rattle.psl_parser.specs.Pieces.{braces, edged, signal, strong, Gave, ReadsBraces, ReadsGroup, ReadsStrength};
ghost use Rattle.psl_parser.specs.Steps.{state, Parsed, Parses};

use crate::fault::Fault;
use crate::make::{self, Piece, infix, prefix};
use crate::operators::COMPARISONS;
use crate::parser::Parser;
use psl_lexer::TokenKind;
use std::alloc::Global;

impl Parser<'_> {
    /// `or ::= and { "||" and }`
    #[cycle(parser)]
    pub fn disjunction(&mut self, alloc: Global) -> Result<Piece, Fault>
        ensures fewer { length self.new.rest.now ≤ length self.old.rest.now }
        ensures parsed { Parsed grammar.Or (state self.old) result (state self.new) }
    {
        let mut left = self.conjunction(alloc)?;
        while self.at(TokenKind::OrOr) {
            let operator = self.take(TokenKind::OrOr)?;
            let right = self.conjunction(alloc)?;
            left = infix(alloc, left, operator, right)?;
        }
        Ok(left)
    }

    /// `and ::= cmp { "&&" cmp }`
    #[cycle(parser)]
    fn conjunction(&mut self, alloc: Global) -> Result<Piece, Fault>
        ensures fewer { length self.new.rest.now ≤ length self.old.rest.now }
        ensures parsed { Parsed grammar.And (state self.old) result (state self.new) }
    {
        let mut left = self.comparison(alloc)?;
        while self.at(TokenKind::AndAnd) {
            let operator = self.take(TokenKind::AndAnd)?;
            let right = self.comparison(alloc)?;
            left = infix(alloc, left, operator, right)?;
        }
        Ok(left)
    }

    /// `cmp ::= una [ ( "==" | "!=" ) una ]`
    #[cycle(parser)]
    fn comparison(&mut self, alloc: Global) -> Result<Piece, Fault>
        ensures fewer { length self.new.rest.now ≤ length self.old.rest.now }
        ensures parsed { Parsed grammar.Cmp (state self.old) result (state self.new) }
    {
        let left = self.unary(alloc)?;
        if !self.at_any(&COMPARISONS) {
            return Ok(left);
        }
        let operator = self.take_any(&COMPARISONS)?;
        let right = self.unary(alloc)?;
        infix(alloc, left, operator, right)
    }

    /// `una ::= "!" una | pri [ "!" ]`
    #[cycle(parser)]
    fn unary(&mut self, alloc: Global) -> Result<Piece, Fault>
        ensures fewer { length self.new.rest.now ≤ length self.old.rest.now }
        ensures parsed { Parsed grammar.Una (state self.old) result (state self.new) }
    {
        if self.at(TokenKind::Not) {
            let operator = self.take(TokenKind::Not)?;
            let operand = self.unary(alloc)?;
            prefix(alloc, operator, operand)
        } else {
            let operand = self.primary(alloc)?;
            self.strength(alloc, operand)
        }
    }

    /// The `!` that may stand behind an operand.
    pub fn strength(&mut self, alloc: Global, operand: Piece) -> Result<Piece, Fault>
        ensures fewer { length self.new.rest.now ≤ length self.old.rest.now }
        ensures parsed { Parses (ReadsStrength operand) strong (state self.old) result (state self.new) }
    {
        if !self.at(TokenKind::Not) {
            return Ok(operand);
        }
        let operator = self.take(TokenKind::Not)?;
        make::postfix(alloc, operand, operator)
    }

    /// `pri ::= atom | "{" sere "}" | counted`
    #[cycle(parser)]
    fn primary(&mut self, alloc: Global) -> Result<Piece, Fault>
        ensures fewer { length self.new.rest.now ≤ length self.old.rest.now }
        ensures parsed { Parsed grammar.Pri (state self.old) result (state self.new) }
    {
        if self.at_atom() {
            self.atom(alloc)
        } else if self.at(TokenKind::BraceOpen) {
            self.braced(alloc)
        } else {
            self.counted(alloc)
        }
    }

    /// `"{" sere "}"`
    #[cycle(parser)]
    pub fn braced(&mut self, alloc: Global) -> Result<Piece, Fault>
        ensures fewer { length self.new.rest.now ≤ length self.old.rest.now }
        ensures parsed { Parses ReadsBraces braces (state self.old) result (state self.new) }
    {
        let opening = self.take(TokenKind::BraceOpen)?;
        let inside = self.sequence(alloc)?;
        self.take(TokenKind::BraceClose)?;
        make::braced(alloc, opening, inside)
    }

    /// `atom ::= path [ "[" NUMBER "]" ] | NUMBER | CONSTANT | "true" | "false"
    /// | ( "posedge" | "negedge" ) path [ "[" NUMBER "]" ] | "(" prop ")"`
    #[cycle(parser)]
    pub fn atom(&mut self, alloc: Global) -> Result<Piece, Fault>
        ensures fewer { length self.new.rest.now ≤ length self.old.rest.now }
        ensures parsed { Parsed grammar.Atom (state self.old) result (state self.new) }
    {
        if self.at(TokenKind::Name) {
            self.signal(alloc)
        } else if self.at_any(&[
            TokenKind::Number,
            TokenKind::Constant,
            TokenKind::True,
            TokenKind::False,
        ]) {
            let token = self.take_any(&[
                TokenKind::Number,
                TokenKind::Constant,
                TokenKind::True,
                TokenKind::False,
            ])?;
            make::literal(alloc, token)
        } else if self.at_any(&[TokenKind::Posedge, TokenKind::Negedge]) {
            self.edge(alloc)
        } else {
            self.grouped(alloc)
        }
    }

    /// `clk0 ::= path [ "[" NUMBER "]" ] | "true" | "false" | "(" prop ")"
    /// | ( "posedge" | "negedge" ) path [ "[" NUMBER "]" ]`
    #[cycle(parser)]
    pub fn clock(&mut self, alloc: Global) -> Result<Piece, Fault>
        ensures fewer { length self.new.rest.now ≤ length self.old.rest.now }
        ensures parsed { Parsed grammar.Clk0 (state self.old) result (state self.new) }
    {
        if self.at(TokenKind::Name) {
            self.signal(alloc)
        } else if self.at_any(&[TokenKind::True, TokenKind::False]) {
            let token = self.take_any(&[TokenKind::True, TokenKind::False])?;
            make::literal(alloc, token)
        } else if self.at(TokenKind::ParenOpen) {
            self.grouped(alloc)
        } else {
            self.edge(alloc)
        }
    }

    /// `"(" prop ")"`, as an operand.
    #[cycle(parser)]
    fn grouped(&mut self, alloc: Global) -> Result<Piece, Fault>
        ensures fewer { length self.new.rest.now ≤ length self.old.rest.now }
        ensures parsed { Parses (Gave atom productions.grouped) productions.grouped
            (state self.old) result (state self.new) }
    {
        let opening = self.take(TokenKind::ParenOpen)?;
        let inside = self.property(alloc)?;
        self.take(TokenKind::ParenClose)?;
        make::grouped(alloc, opening, inside)
    }

    /// `"(" prop ")"`, as a part of a longer form.
    #[cycle(parser)]
    pub fn group(&mut self, alloc: Global) -> Result<Piece, Fault>
        ensures fewer { length self.new.rest.now ≤ length self.old.rest.now }
        ensures parsed { Parses ReadsGroup productions.grouped (state self.old) result (state self.new) }
    {
        self.take(TokenKind::ParenOpen)?;
        let inside = self.property(alloc)?;
        self.take(TokenKind::ParenClose)?;
        Ok(inside)
    }

    /// `path [ "[" NUMBER "]" ]`
    fn signal(&mut self, alloc: Global) -> Result<Piece, Fault>
        ensures fewer { length self.new.rest.now ≤ length self.old.rest.now }
        ensures parsed { Parses (Gave atom signal) signal (state self.old) result (state self.new) }
    {
        let path = self.path(alloc)?;
        let number = self.optional_index(alloc)?;
        make::signal(alloc, path, number)
    }

    /// `( "posedge" | "negedge" ) path [ "[" NUMBER "]" ]`
    fn edge(&mut self, alloc: Global) -> Result<Piece, Fault>
        ensures fewer { length self.new.rest.now ≤ length self.old.rest.now }
        ensures parsed { Parses (Gave atom edged) edged (state self.old) result (state self.new) }
    {
        let word = self.take_any(&[TokenKind::Posedge, TokenKind::Negedge])?;
        let path = self.path(alloc)?;
        let number = self.optional_index(alloc)?;
        make::edge(alloc, word, path, number)
    }
}
