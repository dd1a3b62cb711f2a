ghost use Rattle.std.specs.Prelude.{◌≡◌, ◌<◌, ◌≤◌, length, [], ◌∷◌, MatchResult, OnOk};
ghost use Rattle.psl_grammar.specs.Firsts.{at, has};
ghost use Rattle.psl_grammar.specs.Firsts.{atom_first, before_bracket, bool_first, goes_left, post_first, statement_first};
ghost use Rattle.psl_grammar.specs.Parts.{Sym, Trm};
ghost use Rattle.psl_parser.specs.Pieces.{labelled_first, occurs};
ghost use Rattle.psl_parser.specs.Steps.{state, Took, TookNot};

use crate::fault::Fault;
use psl_lexer::{Token, TokenKind};

/// A reader of tokens that looks at the next one, and behind `next` at one more.
#[derive(Drop)]
pub struct Parser<'a> {
    /// The tokens that are left.
    pub rest: &'a [Token],
    /// How many tokens are left behind the one that passes a limit.
    pub limit: usize,
}

/// Whether a kind is one of some.
pub fn is_any(kind: TokenKind, kinds: &[TokenKind]) -> bool
    ensures { result ≡ has kind kinds.now }
{
    for other in kinds {
        if kind == *other {
            return true;
        }
    }
    false
}

impl<'a> Parser<'a> {
    /// Whether the next token is of one of these kinds.
    pub fn at_any(&self, kinds: &[TokenKind]) -> bool
        ensures { result ≡ at (state self.now).tokens kinds.now }
    {
        match self.rest.split_first() {
            Some((token, _)) => is_any(token.kind, kinds),
            None => false,
        }
    }

    /// Whether the next token is of this kind.
    pub fn at(&self, kind: TokenKind) -> bool
        ensures { result ≡ at (state self.now).tokens (kind ∷ []) }
    {
        self.at_any(&[kind])
    }

    /// Takes the next token, which is to be of one of these kinds.
    pub fn take_any(&mut self, kinds: &[TokenKind]) -> Result<&'a Token, Fault>
        ensures fewer { length self.new.rest.now ≤ length self.old.rest.now }
        ensures shorter { OnOk result (length self.new.rest.now < length self.old.rest.now) }
        ensures took { MatchResult result (λ token. Took kinds.now (state self.old) token.now (state self.new))
            (λ fault. TookNot kinds.now (state self.old) fault (state self.new)) }
    {
        match self.rest.split_first() {
            None => Err(Fault::Syntax),
            Some((token, rest)) => {
                if !is_any(token.kind, kinds) {
                    return Err(Fault::Syntax);
                }
                if rest.len() == self.limit {
                    return Err(Fault::Limit);
                }
                self.rest = rest;
                Ok(token)
            }
        }
    }

    /// Takes the next token, which is to be of this kind.
    pub fn take(&mut self, kind: TokenKind) -> Result<&'a Token, Fault>
        ensures fewer { length self.new.rest.now ≤ length self.old.rest.now }
        ensures shorter { OnOk result (length self.new.rest.now < length self.old.rest.now) }
        ensures took { MatchResult result (λ token. Took (kind ∷ []) (state self.old) token.now (state self.new))
            (λ fault. TookNot (kind ∷ []) (state self.old) fault (state self.new)) }
    {
        self.take_any(&[kind])
    }

    /// Whether the next token can be the first of an atom.
    pub fn at_atom(&self) -> bool
        ensures { result ≡ at (state self.now).tokens atom_first }
    {
        self.at_any(&[
            TokenKind::Name,
            TokenKind::Number,
            TokenKind::Constant,
            TokenKind::True,
            TokenKind::False,
            TokenKind::Posedge,
            TokenKind::Negedge,
            TokenKind::ParenOpen,
        ])
    }

    /// Whether the next token can be the first of a Boolean in braces.
    pub fn at_boolean(&self) -> bool
        ensures { result ≡ at (state self.now).tokens bool_first }
    {
        self.at(TokenKind::Not) || self.at_atom()
    }

    /// Whether the next token can be the first of a repetition or a clock.
    pub fn at_post(&self) -> bool
        ensures { result ≡ at (state self.now).tokens post_first }
    {
        self.at_any(&[
            TokenKind::GotoOpen,
            TokenKind::PlusRepeat,
            TokenKind::StarOpen,
            TokenKind::EqualsOpen,
            TokenKind::At,
        ])
    }

    /// Whether the token behind the next one is `[`.
    fn is_before_bracket(&self) -> bool
        ensures { result ≡ before_bracket (state self.now).tokens }
    {
        match self.rest {
            [_, second, ..] => second.kind == TokenKind::BracketOpen,
            _ => false,
        }
    }

    /// Whether `next`, `next!` or `eventually!` stands before an operand. Before `[` the first two begin a counted
    /// form.
    pub fn at_occurrence(&self) -> bool
        ensures { result ≡ goes_left occurs (Sym Trm) (state self.now).tokens }
    {
        if self.at_any(&[TokenKind::Next, TokenKind::NextStrong]) {
            !self.is_before_bracket()
        } else {
            self.at(TokenKind::EventuallyStrong)
        }
    }

    /// Whether the next token can be the first of a directive, or of its label.
    pub fn at_directive(&self) -> bool
        ensures { result ≡ at (state self.now).tokens labelled_first }
    {
        self.at_any(&[
            TokenKind::Name,
            TokenKind::Assert,
            TokenKind::Assume,
            TokenKind::Cover,
        ])
    }

    /// Whether the next token can be the first of a statement.
    pub fn at_statement(&self) -> bool
        ensures { result ≡ at (state self.now).tokens statement_first }
    {
        self.at_any(&[
            TokenKind::Name,
            TokenKind::Assert,
            TokenKind::Assume,
            TokenKind::Cover,
            TokenKind::Sequence,
            TokenKind::Property,
            TokenKind::Default,
        ])
    }
}
