ghost use Rattle.std.specs.Prelude.{◌≤◌, length};
ghost use Rattle.psl_grammar.specs.Parts as grammar;
ghost use Rattle.psl_grammar.specs.Parts.{Sym};
ghost use Rattle.psl_parser.specs.Pieces.{tailed, ReadsTail, ReadsTails};
ghost use Rattle.psl_parser.specs.Steps.{state, Parsed, Parses};

use crate::fault::Fault;
use crate::make::{self, Piece, infix};
use crate::operators::SEQUENCE_ANDS;
use crate::parser::Parser;
use psl_lexer::TokenKind;
use std::alloc::Global;

impl Parser<'_> {
    /// `sere ::= fus { ";" fus }`
    #[cycle(parser)]
    pub fn sequence(&mut self, alloc: Global) -> Result<Piece, Fault>
        ensures fewer { length self.new.rest.now ≤ length self.old.rest.now }
        ensures parsed { Parsed grammar.Sere (state self.old) result (state self.new) }
    {
        let mut left = self.fusion(alloc)?;
        while self.at(TokenKind::Semicolon) {
            let operator = self.take(TokenKind::Semicolon)?;
            let right = self.fusion(alloc)?;
            left = infix(alloc, left, operator, right)?;
        }
        Ok(left)
    }

    /// `fus ::= alt { ":" alt }`
    #[cycle(parser)]
    fn fusion(&mut self, alloc: Global) -> Result<Piece, Fault>
        ensures fewer { length self.new.rest.now ≤ length self.old.rest.now }
        ensures parsed { Parsed grammar.Fus (state self.old) result (state self.new) }
    {
        let mut left = self.alternation(alloc)?;
        while self.at(TokenKind::Colon) {
            let operator = self.take(TokenKind::Colon)?;
            let right = self.alternation(alloc)?;
            left = infix(alloc, left, operator, right)?;
        }
        Ok(left)
    }

    /// `alt ::= conj { "|" conj }`
    #[cycle(parser)]
    fn alternation(&mut self, alloc: Global) -> Result<Piece, Fault>
        ensures fewer { length self.new.rest.now ≤ length self.old.rest.now }
        ensures parsed { Parsed grammar.Alt (state self.old) result (state self.new) }
    {
        let mut left = self.conjunct(alloc)?;
        while self.at(TokenKind::Bar) {
            let operator = self.take(TokenKind::Bar)?;
            let right = self.conjunct(alloc)?;
            left = infix(alloc, left, operator, right)?;
        }
        Ok(left)
    }

    /// `conj ::= bor [ post { post } wtail ctail ] | start { post } wtail ctail`
    #[cycle(parser)]
    fn conjunct(&mut self, alloc: Global) -> Result<Piece, Fault>
        ensures fewer { length self.new.rest.now ≤ length self.old.rest.now }
        ensures parsed { Parsed grammar.Conj (state self.old) result (state self.new) }
    {
        if !self.at_boolean() {
            let operand = self.start(alloc)?;
            return self.tails(alloc, operand);
        }
        let operand = self.bool_or(alloc)?;
        if !self.at_post() {
            return Ok(operand);
        }
        self.tails(alloc, operand)
    }

    /// `{ post } wtail ctail`
    #[cycle(parser)]
    fn tails(&mut self, alloc: Global, operand: Piece) -> Result<Piece, Fault>
        ensures fewer { length self.new.rest.now ≤ length self.old.rest.now }
        ensures parsed { Parses (ReadsTails operand) tailed (state self.old) result (state self.new) }
    {
        let operand = self.posts(alloc, operand)?;
        let operand = self.within_tail(alloc, operand)?;
        self.and_tail(alloc, operand)
    }

    /// `wtail ::= { "within" part }`
    #[cycle(parser)]
    fn within_tail(&mut self, alloc: Global, operand: Piece) -> Result<Piece, Fault>
        ensures fewer { length self.new.rest.now ≤ length self.old.rest.now }
        ensures parsed { Parses (ReadsTail grammar.Wtail operand) (Sym grammar.Wtail)
            (state self.old) result (state self.new) }
    {
        let mut left = operand;
        while self.at(TokenKind::Within) {
            let operator = self.take(TokenKind::Within)?;
            let right = self.side(alloc)?;
            left = infix(alloc, left, operator, right)?;
        }
        Ok(left)
    }

    /// `ctail ::= { ( "&" | "&&" ) part wtail }`
    #[cycle(parser)]
    fn and_tail(&mut self, alloc: Global, operand: Piece) -> Result<Piece, Fault>
        ensures fewer { length self.new.rest.now ≤ length self.old.rest.now }
        ensures parsed { Parses (ReadsTail grammar.Ctail operand) (Sym grammar.Ctail)
            (state self.old) result (state self.new) }
    {
        let mut left = operand;
        while self.at_any(&SEQUENCE_ANDS) {
            let operator = self.take_any(&SEQUENCE_ANDS)?;
            let side = self.side(alloc)?;
            let right = self.within_tail(alloc, side)?;
            left = infix(alloc, left, operator, right)?;
        }
        Ok(left)
    }

    /// `part ::= bor post { post } | start { post }`
    #[cycle(parser)]
    fn side(&mut self, alloc: Global) -> Result<Piece, Fault>
        ensures fewer { length self.new.rest.now ≤ length self.old.rest.now }
        ensures parsed { Parsed grammar.Side (state self.old) result (state self.new) }
    {
        if self.at_boolean() {
            let operand = self.bool_or(alloc)?;
            let operand = self.post(alloc, operand)?;
            self.posts(alloc, operand)
        } else {
            let operand = self.start(alloc)?;
            self.posts(alloc, operand)
        }
    }

    /// `start ::= "{" sere "}" | "[*" [ count ] "]" | "[+]"`
    #[cycle(parser)]
    fn start(&mut self, alloc: Global) -> Result<Piece, Fault>
        ensures fewer { length self.new.rest.now ≤ length self.old.rest.now }
        ensures parsed { Parsed grammar.Start (state self.old) result (state self.new) }
    {
        if self.at(TokenKind::BraceOpen) {
            return self.braced(alloc);
        }
        if self.at(TokenKind::StarOpen) {
            let repetition = self.counted_repetition(alloc, TokenKind::StarOpen)?;
            return make::alone(alloc, repetition);
        }
        let repetition = self.plain_repetition(alloc)?;
        make::alone(alloc, repetition)
    }
}
