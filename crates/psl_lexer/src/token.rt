ghost use Rattle.std.specs.Prelude.{◌≡◌, [], ◌∷◌, ◌++◌, ◌<◌, ◌≤◌, length, slice_get, IfOk, OnOk, OnErr};
ghost use Rattle.psl_lexer.specs.Limits.{token_limit};

use crate::TokenKind;
use psl_base::{Bytes, Items, NoMemory, Place};
use std::alloc::Global;
use std::marker::Model;

/// A token of a text.
#[derive(Debug, Drop)]
pub struct Token {
    pub kind: TokenKind,
    /// The bytes of the token; of an escaped name those of the name alone.
    pub text: Bytes,
    /// How many bytes of the text stand before the token.
    pub start: u32,
    /// How many bytes of the text stand before the end of the token.
    pub end: u32,
    /// Where the token begins.
    pub place: Place,
}

impl Token {
    /// An equal token.
    pub fn copy(&self, alloc: Global) -> Result<Token, NoMemory>
        ensures { IfOk result (λ new. new ≡ self.now) }
    {
        Ok(Token {
            kind: self.kind,
            text: self.text.copy(alloc)?,
            start: self.start,
            end: self.end,
            place: self.place,
        })
    }
}

/// Tokens in order, at most 268,435,456 of them. Contracts see them as a list.
#[derive(Debug, Drop)]
pub struct Tokens {
    tokens: Items<Token>,
}

impl Model for Tokens {
    ghost use Rattle.std.specs.Prelude.{List, length, ◌≤◌};
    ghost use Rattle.psl_lexer.specs.declared.token.Token.{Token};
    ghost use Rattle.psl_lexer.specs.Limits.{token_limit};

    ghost Value = { List Token };

    ghost view = { λ list. list.tokens };

    ghost invariant = { λ list. length list.tokens ≤ token_limit };
}

impl Tokens {
    /// No tokens. It takes no memory.
    pub fn new(alloc: Global) -> Tokens
        ensures { result ≡ [] }
    {
        Tokens {
            tokens: Items::new(alloc),
        }
    }

    /// How many tokens there are.
    pub fn len(&self) -> usize
        ensures count { result ≡ length self.now }
        ensures limit { result ≤ token_limit }
    {
        self.tokens.len()
    }

    /// The token at a place in the list, counted from 0.
    pub fn at(&self, index: usize) -> &Token
        requires { index < length self.now }
        ensures { slice_get self.now index ≡ Some result.now }
    {
        self.tokens.at(index)
    }

    /// The tokens in order.
    pub fn as_slice(&self) -> &[Token]
        ensures tokens { result.now ≡ self.now }
        ensures limit { length result.now ≤ token_limit }
    {
        self.tokens.as_slice()
    }

    /// Adds a token at the end. Where memory is refused, the token is dropped and the list stays.
    pub fn push(&mut self, token: Token) -> Result<(), NoMemory>
        requires { length self.old < token_limit }
        ensures ok { OnOk result (self.new ≡ self.old ++ token ∷ []) }
        ensures err { OnErr result (self.new ≡ self.old) }
    {
        self.tokens.push(token)
    }
}
