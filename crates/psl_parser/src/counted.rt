ghost use Rattle.std.specs.Prelude.{◌≤◌, length};
ghost use Rattle.psl_grammar.specs.Parts as grammar;
ghost use Rattle.psl_grammar.specs.Trees.{built};
ghost use Rattle.psl_parser.specs.Pieces as parts;
ghost use Rattle.psl_parser.specs.Pieces.{Gave};
ghost use Rattle.psl_parser.specs.Steps.{state, Parsed, Parses};

use crate::fault::Fault;
use crate::make::{self, Piece};
use crate::parser::Parser;
use psl_grammar::Count;
use psl_lexer::TokenKind;
use std::alloc::Global;

/// `next_a` and `next_e`, weak and strong.
const NEXT_RANGE: [TokenKind; 4] = [
    TokenKind::NextA,
    TokenKind::NextAStrong,
    TokenKind::NextE,
    TokenKind::NextEStrong,
];

/// `next_event_a` and `next_event_e`, weak and strong.
const EVENT_RANGE: [TokenKind; 4] = [
    TokenKind::NextEventA,
    TokenKind::NextEventAStrong,
    TokenKind::NextEventE,
    TokenKind::NextEventEStrong,
];

impl Parser<'_> {
    /// `counted ::= ( "next" | "next!" ) "[" NUMBER "]" "(" prop ")"
    /// | NEXTAE "[" NUMBER ":" NUMBER "]" "(" prop ")"
    /// | ( "next_event" | "next_event!" ) "(" prop ")" [ "[" NUMBER "]" ] "(" prop ")"
    /// | EVENTAE "(" prop ")" "[" NUMBER ":" NUMBER "]" "(" prop ")"`
    #[cycle(parser)]
    pub fn counted(&mut self, alloc: Global) -> Result<Piece, Fault>
        ensures fewer { length self.new.rest.now ≤ length self.old.rest.now }
        ensures parsed { Parsed grammar.Counted (state self.old) result (state self.new) }
    {
        if self.at_any(&[TokenKind::Next, TokenKind::NextStrong]) {
            self.next_times(alloc)
        } else if self.at_any(&NEXT_RANGE) {
            self.next_range(alloc)
        } else if self.at_any(&[TokenKind::NextEvent, TokenKind::NextEventStrong]) {
            self.next_event(alloc)
        } else {
            self.event_range(alloc)
        }
    }

    /// `( "next" | "next!" ) "[" NUMBER "]" "(" prop ")"`
    #[cycle(parser)]
    fn next_times(&mut self, alloc: Global) -> Result<Piece, Fault>
        ensures fewer { length self.new.rest.now ≤ length self.old.rest.now }
        ensures parsed { Parses (Gave (built grammar.Counted) parts.next_times) parts.next_times
            (state self.old) result (state self.new) }
    {
        let word = self.take_any(&[TokenKind::Next, TokenKind::NextStrong])?;
        let number = self.index(alloc)?;
        let operand = self.group(alloc)?;
        make::next_times(alloc, word, Count::Times(number), operand)
    }

    /// `NEXTAE "[" NUMBER ":" NUMBER "]" "(" prop ")"`
    #[cycle(parser)]
    fn next_range(&mut self, alloc: Global) -> Result<Piece, Fault>
        ensures fewer { length self.new.rest.now ≤ length self.old.rest.now }
        ensures parsed { Parses (Gave (built grammar.Counted) parts.next_ranged) parts.next_ranged
            (state self.old) result (state self.new) }
    {
        let word = self.take_any(&NEXT_RANGE)?;
        let count = self.range(alloc)?;
        let operand = self.group(alloc)?;
        make::next_times(alloc, word, count, operand)
    }

    /// `( "next_event" | "next_event!" ) "(" prop ")" [ "[" NUMBER "]" ] "(" prop ")"`
    #[cycle(parser)]
    fn next_event(&mut self, alloc: Global) -> Result<Piece, Fault>
        ensures fewer { length self.new.rest.now ≤ length self.old.rest.now }
        ensures parsed { Parses (Gave (built grammar.Counted) parts.next_event) parts.next_event
            (state self.old) result (state self.new) }
    {
        let word = self.take_any(&[TokenKind::NextEvent, TokenKind::NextEventStrong])?;
        let condition = self.group(alloc)?;
        if !self.at(TokenKind::BracketOpen) {
            let operand = self.group(alloc)?;
            return make::next_event(alloc, word, condition, None, operand);
        }
        let number = self.index(alloc)?;
        let operand = self.group(alloc)?;
        make::next_event(alloc, word, condition, Some(Count::Times(number)), operand)
    }

    /// `EVENTAE "(" prop ")" "[" NUMBER ":" NUMBER "]" "(" prop ")"`
    #[cycle(parser)]
    fn event_range(&mut self, alloc: Global) -> Result<Piece, Fault>
        ensures fewer { length self.new.rest.now ≤ length self.old.rest.now }
        ensures parsed { Parses (Gave (built grammar.Counted) parts.event_ranged) parts.event_ranged
            (state self.old) result (state self.new) }
    {
        let word = self.take_any(&EVENT_RANGE)?;
        let condition = self.group(alloc)?;
        let count = self.range(alloc)?;
        let operand = self.group(alloc)?;
        make::next_event(alloc, word, condition, Some(count), operand)
    }
}
