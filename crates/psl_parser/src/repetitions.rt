ghost use Rattle.std.specs.Prelude.{◌<◌, ◌≤◌, length, OnOk};
ghost use Rattle.psl_grammar.specs.Parts as grammar;
ghost use Rattle.psl_grammar.specs.Parts.{Many, Maybe, Quoted, Sym};
ghost use Rattle.psl_lexer.specs.declared.kind.TokenKind.TheVariants as kinds;
ghost use Rattle.psl_parser.specs.Pieces.{starred, equals, ReadsCount, ReadsEquals, ReadsOptionalCount, ReadsPlain, ReadsPost, ReadsPosts, ReadsRepetition};
ghost use Rattle.psl_parser.specs.Steps.{state, Parses};

use crate::fault::Fault;
use crate::make::{self, Piece, Repetition};
use crate::parser::Parser;
use psl_grammar::Count;
use psl_lexer::TokenKind;
use std::alloc::Global;

impl Parser<'_> {
    /// `{ post }`, each applied to all that stands before it.
    #[cycle(parser)]
    pub fn posts(&mut self, alloc: Global, operand: Piece) -> Result<Piece, Fault>
        ensures fewer { length self.new.rest.now ≤ length self.old.rest.now }
        ensures parsed { Parses (ReadsPosts operand) (Many (Sym grammar.Post))
            (state self.old) result (state self.new) }
    {
        let mut operand = operand;
        while self.at_post() {
            operand = self.post(alloc, operand)?;
        }
        Ok(operand)
    }

    /// `post ::= "[*" [ count ] "]" | "[+]" | "[->" [ count ] "]" | "[=" count "]" | "@" clk0`
    #[cycle(parser)]
    pub fn post(&mut self, alloc: Global, operand: Piece) -> Result<Piece, Fault>
        ensures fewer { length self.new.rest.now ≤ length self.old.rest.now }
        ensures shorter { OnOk result (length self.new.rest.now < length self.old.rest.now) }
        ensures parsed { Parses (ReadsPost operand) (Sym grammar.Post) (state self.old) result (state self.new) }
    {
        if self.at(TokenKind::StarOpen) {
            let repetition = self.counted_repetition(alloc, TokenKind::StarOpen)?;
            return make::repeated(alloc, operand, repetition);
        }
        if self.at(TokenKind::PlusRepeat) {
            let repetition = self.plain_repetition(alloc)?;
            return make::repeated(alloc, operand, repetition);
        }
        if self.at(TokenKind::GotoOpen) {
            let repetition = self.counted_repetition(alloc, TokenKind::GotoOpen)?;
            return make::repeated(alloc, operand, repetition);
        }
        if self.at(TokenKind::EqualsOpen) {
            let repetition = self.equals_repetition(alloc)?;
            return make::repeated(alloc, operand, repetition);
        }
        let at = self.take(TokenKind::At)?;
        let clock = self.clock(alloc)?;
        make::clocked(alloc, operand, at, clock)
    }

    /// `"[*" [ count ] "]"`, or the same behind another token.
    pub fn counted_repetition(
        &mut self,
        alloc: Global,
        kind: TokenKind,
    ) -> Result<Repetition, Fault>
        ensures fewer { length self.new.rest.now ≤ length self.old.rest.now }
        ensures shorter { OnOk result (length self.new.rest.now < length self.old.rest.now) }
        ensures parsed { Parses (ReadsRepetition kind) (starred kind) (state self.old) result (state self.new) }
    {
        let opening = self.take(kind)?;
        let count = self.optional_count(alloc)?;
        self.take(TokenKind::BracketClose)?;
        make::make_repetition(alloc, opening, count)
    }

    /// `"[+]"`
    pub fn plain_repetition(&mut self, alloc: Global) -> Result<Repetition, Fault>
        ensures fewer { length self.new.rest.now ≤ length self.old.rest.now }
        ensures shorter { OnOk result (length self.new.rest.now < length self.old.rest.now) }
        ensures parsed { Parses ReadsPlain (Quoted kinds.PlusRepeat) (state self.old) result (state self.new) }
    {
        let opening = self.take(TokenKind::PlusRepeat)?;
        make::make_repetition(alloc, opening, None)
    }

    /// `"[=" count "]"`
    fn equals_repetition(&mut self, alloc: Global) -> Result<Repetition, Fault>
        ensures fewer { length self.new.rest.now ≤ length self.old.rest.now }
        ensures shorter { OnOk result (length self.new.rest.now < length self.old.rest.now) }
        ensures parsed { Parses ReadsEquals equals (state self.old) result (state self.new) }
    {
        let opening = self.take(TokenKind::EqualsOpen)?;
        let count = self.count(alloc)?;
        self.take(TokenKind::BracketClose)?;
        make::make_repetition(alloc, opening, Some(count))
    }

    /// `[ count ]`
    fn optional_count(&mut self, alloc: Global) -> Result<Option<Count>, Fault>
        ensures fewer { length self.new.rest.now ≤ length self.old.rest.now }
        ensures parsed { Parses ReadsOptionalCount (Maybe (Sym grammar.Count))
            (state self.old) result (state self.new) }
    {
        if !self.at(TokenKind::Number) {
            return Ok(None);
        }
        let count = self.count(alloc)?;
        Ok(Some(count))
    }

    /// `count ::= NUMBER [ ":" ( NUMBER | "inf" ) ]`
    fn count(&mut self, alloc: Global) -> Result<Count, Fault>
        ensures fewer { length self.new.rest.now ≤ length self.old.rest.now }
        ensures parsed { Parses ReadsCount (Sym grammar.Count) (state self.old) result (state self.new) }
    {
        let low = self.take(TokenKind::Number)?;
        if !self.at(TokenKind::Colon) {
            return make::times(alloc, low);
        }
        self.take(TokenKind::Colon)?;
        let high = self.take_any(&[TokenKind::Number, TokenKind::Inf])?;
        make::between(alloc, low, high)
    }
}
