ghost use Rattle.std.specs.Prelude.{◌≡◌, ◌+◌, ◌<◌, ◌≤◌, length, take, IfOk, IfErr, slice_range, ◌++◌, ◌∷◌, []};
ghost use Rattle.psl_lexer.specs.Limits.{text_limit};
ghost use Rattle.psl_base.specs.Places.{place_at};
ghost use Rattle.psl_lexer.specs.Lexed.{IsReadTo, IsLexed};
ghost use Rattle.psl_lexer.specs.Faults.{IsFirstFault};

use crate::front::{Front, read_front};
use crate::{LexFault, Token, TokenKind, Tokens};
use psl_base::{Bytes, NoMemory, Place, advance};
use std::alloc::Global;

/// Where the reader of a text stands.
#[derive(Clone, Copy)]
struct Position<'a> {
    text: &'a [u8],
    /// How many bytes of the text stand before it.
    at: usize,
    /// Its line and its byte of that line.
    place: Place,
}

impl Position<'_> {
    /// The token that begins here, says these bytes, and ends behind so many bytes of the text.
    fn token(
        &self,
        alloc: Global,
        kind: TokenKind,
        said: &[u8],
        end: usize,
    ) -> Result<Token, NoMemory>
        requires order { self.now.at ≤ end }
        requires limit { end ≤ text_limit }
        ensures { IfOk result (λ token. token ≡
            record { kind = kind; text = said.now; start = self.now.at; end = end; place = self.now.place }) }
    {
        Ok(Token {
            kind,
            text: Bytes::from_slice(alloc, said)?,
            start: self.at as u32,
            end: end as u32,
            place: self.place,
        })
    }

    /// Reads what stands here, adds the token if it is one, and says where it ends.
    fn read(&self, alloc: Global, tokens: &mut Tokens) -> Result<usize, LexFault>
        requires within { self.now.at < length self.now.text.now }
        requires limit { length self.now.text.now ≤ text_limit }
        requires place { self.now.place ≡ place_at self.now.text.now self.now.at }
        requires before { IsReadTo self.now.text.now tokens.old self.now.at }
        requires few { length tokens.old ≤ self.now.at }
        ensures further { IfOk result (λ end. (self.now.at < end) × (end ≤ length self.now.text.now)) }
        ensures after { IfOk result (λ end. IsReadTo self.now.text.now tokens.new end) }
        ensures few { IfOk result (λ end. length tokens.new ≤ end) }
        ensures fault { IfErr result (λ fault. IsFirstFault self.now.text.now fault) }
    {
        let Position { text, at, place } = *self;
        match read_front(&text[at..]) {
            Front::Skip(len) => Ok(at + len),
            Front::Token(kind, len) => {
                let end = at + len;
                tokens.push(self.token(alloc, kind, &text[at..end], end)?)?;
                Ok(end)
            }
            Front::Escaped(len) => {
                let end = at + len;
                let name = &text[at + 1..end - 1];
                tokens.push(self.token(alloc, TokenKind::Name, name, end)?)?;
                Ok(end)
            }
            Front::Bad(len) => Err(LexFault::BadByte(advance(text, at, at + len, place))),
            Front::Unended => Err(LexFault::Unended(place)),
            Front::TooLarge(_) => Err(LexFault::NumberTooLarge(place)),
        }
    }
}

/// The tokens of a text, in order, with their offsets and places. White space and comments stand
/// between them.
///
/// The first fault of the text is named where there is one. `NoMemory` may come at any time.
pub fn lex(alloc: Global, text: &[u8]) -> Result<Tokens, LexFault>
    requires { length text.now ≤ text_limit }
    ensures tokens { IfOk result (λ tokens. IsLexed text.now tokens) }
    ensures fault { IfErr result (λ fault. IsFirstFault text.now fault) }
{
    let mut tokens = Tokens::new(alloc);
    let mut position = Position {
        text,
        at: 0,
        place: Place { line: 1, column: 1 },
    };
    while position.at < text.len() {
        let end = position.read(alloc, &mut tokens)?;
        position.place = advance(text, position.at, end, position.place);
        position.at = end;
    }
    Ok(tokens)
}
