ghost use Rattle.std.specs.Prelude.{◌≡◌, ◌+◌, ◌-◌, if◌then◌else◌, List, IfOk};
ghost use Rattle.psl_lexer.specs.declared.token.Token.{Token as TokenOf};
ghost use Rattle.psl_parser.specs.Statements as text;
ghost use Rattle.psl_parser.specs.Counted.{counts_of, counted, AreSmall, IsSmall, StepsBehind, StepsFrom};

use crate::limit::Limit;
use psl_lexer::{Token, TokenKind};

/// How many brackets may be open at once in a statement.
const LEVEL_LIMIT: usize = 64;

/// How many tokens a statement may have.
const LENGTH_LIMIT: usize = 2048;

/// Tokens of a statement, in numbers.
#[derive(Clone, Copy)]
pub struct Counts {
    /// How many there are.
    tokens: usize,
    /// How many of them open a bracket.
    opened: usize,
    /// How many of them close one.
    closed: usize,
}

/// Where the next token stands.
#[derive(Clone, Copy)]
pub enum State {
    /// Where a statement may begin, or a verification unit's head, or where a unit may end.
    Outside,
    /// In a unit's head.
    InHead,
    /// In a statement, behind some of its tokens.
    Inside(Counts),
}

/// Whether the token opens a bracket.
fn opens(token: &Token) -> bool
    ensures { result ≡ text.opens token.now }
{
    token.kind == TokenKind::ParenOpen || token.kind == TokenKind::BraceOpen
}

/// Whether the token closes a bracket.
fn closes(token: &Token) -> bool
    ensures { result ≡ text.closes token.now }
{
    token.kind == TokenKind::ParenClose || token.kind == TokenKind::BraceClose
}

impl Counts {
    /// Of no tokens.
    const NONE: Counts = Counts {
        tokens: 0,
        opened: 0,
        closed: 0,
    };

    /// How many brackets are open.
    fn level(self) -> usize
        ensures { result ≡ self.opened - self.closed }
    {
        self.opened.saturating_sub(self.closed)
    }

    /// With one more token.
    fn with(self, token: &Token) -> Counts
        requires { AreSmall self }
        ensures tokens { result.tokens ≡ self.tokens + 1 }
        ensures opened { result.opened ≡ (if text.opens token.now then self.opened + 1 else self.opened) }
        ensures closed { result.closed ≡ (if text.closes token.now then self.closed + 1 else self.closed) }
    {
        Counts {
            tokens: self.tokens + 1,
            opened: self.opened + usize::from(opens(token)),
            closed: self.closed + usize::from(closes(token)),
        }
    }

    /// Where the next token stands behind a token of the statement; or the limit that this token passes.
    fn step(self, token: &Token) -> Result<State, Limit>
        requires { AreSmall self }
        ensures small { IfOk result (λ state. IsSmall state) }
        ensures step { (before : List TokenOf) → self ≡ counts_of before → StepsBehind before token.now result }
    {
        let counts = self.with(token);
        if opens(token) && counts.level() > LEVEL_LIMIT {
            Err(Limit::Nesting)
        } else if counts.tokens > LENGTH_LIMIT {
            Err(Limit::Length)
        } else if token.kind == TokenKind::Semicolon && self.level() == 0 {
            Ok(State::Outside)
        } else {
            Ok(State::Inside(counts))
        }
    }
}

impl State {
    /// Where the next token stands behind a token; or the limit that this token passes.
    pub fn step(self, token: &Token) -> Result<State, Limit>
        requires { IsSmall self }
        ensures small { IfOk result (λ state. IsSmall state) }
        ensures step { (from : text.State) → self ≡ counted from → StepsFrom from token.now result }
    {
        match self {
            State::InHead if token.kind == TokenKind::BraceOpen => Ok(State::Outside),
            State::InHead => Ok(State::InHead),
            State::Outside if token.kind == TokenKind::Vunit => Ok(State::InHead),
            State::Outside if token.kind == TokenKind::BraceClose => Ok(State::Outside),
            State::Outside => Counts::NONE.step(token),
            State::Inside(counts) => counts.step(token),
        }
    }
}
