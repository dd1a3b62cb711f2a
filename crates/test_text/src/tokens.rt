// What no case shows: which token each keyword and punctuation is, where tokens end, and where they stand.
use psl_base::NoMemory;
use psl_lexer::{LexFault, Token, Tokens, lex};
use std::alloc::Global;
use std::test::Fail;

/// Each keyword and punctuation, and its kind.
const SINGLE: &str = "
always Always
never Never
next Next
next_a NextA
next_e NextE
next_event NextEvent
next_event_a NextEventA
next_event_e NextEventE
until Until
until_ UntilOverlap
before Before
before_ BeforeOverlap
abort Abort
async_abort AsyncAbort
sync_abort SyncAbort
within Within
inf Inf
true True
false False
posedge Posedge
negedge Negedge
assert Assert
assume Assume
cover Cover
report Report
vunit Vunit
sequence Sequence
property Property
default Default
clock Clock
next! NextStrong
next_a! NextAStrong
next_e! NextEStrong
next_event! NextEventStrong
next_event_a! NextEventAStrong
next_event_e! NextEventEStrong
eventually! EventuallyStrong
until! UntilStrong
before! BeforeStrong
until!_ UntilStrongOverlap
before!_ BeforeStrongOverlap
|-> Implies
|=> ImpliesNext
<-> Iff
[-> GotoOpen
[+] PlusRepeat
[* StarOpen
[= EqualsOpen
-> Arrow
&& AndAnd
|| OrOr
== EqualEqual
!= NotEqual
<= LessEqual
>= GreaterEqual
( ParenOpen
) ParenClose
{ BraceOpen
} BraceClose
[ BracketOpen
] BracketClose
; Semicolon
: Colon
. Dot
@ At
! Not
& Ampersand
| Bar
= Equals
< Less
> Greater
";

/// Texts, and the kinds and the bytes of their tokens. A byte that is no ASCII is shown as a question mark.
const TEXTS: [(&[u8], &str); 16] = [
    (
        b"a|->b||c|d|=>e|=f",
        "Name a Implies |-> Name b OrOr || Name c Bar | Name d ImpliesNext |=> Name e Bar | Equals = Name f",
    ),
    (
        b"[->[*[=[+][",
        "GotoOpen [-> StarOpen [* EqualsOpen [= PlusRepeat [+] BracketOpen [",
    ),
    (
        b"next!=b next!b",
        "Next next NotEqual != Name b NextStrong next! Name b",
    ),
    (
        b"until!_x until!_=until!_!=",
        "UntilStrong until! Name _x UntilStrongOverlap until!_ Equals = UntilStrongOverlap until!_ NotEqual !=",
    ),
    (
        b"until!=until_!before!__",
        "Until until NotEqual != UntilOverlap until_ Not ! BeforeStrong before! Name __",
    ),
    (
        b"eventually eventually! eventually!=",
        "Name eventually EventuallyStrong eventually! Name eventually NotEqual !=",
    ),
    (
        b"X!F always1 Always a$b_1",
        "Name X Not ! Name F Name always1 Name Always Name a$b_1",
    ),
    (b"===!==", "EqualEqual == Equals = NotEqual != Equals ="),
    (
        b"a<->b<=c<d->e>=f>g<==>>=<",
        "Name a Iff <-> Name b LessEqual <= Name c Less < Name d Arrow -> Name e GreaterEqual >= Name f Greater > Name g LessEqual <= Equals = Greater > GreaterEqual >= Less <",
    ),
    (
        b"1_0a 12 4'b01_0 4'b012 8'HfF 3'o7 64'hffff_ffff_ffff_ffff",
        "Number 1_0 Name a Number 12 Constant 4'b01_0 Constant 4'b01 Number 2 Constant 8'HfF Constant 3'o7 Constant 64'hffff_ffff_ffff_ffff",
    ),
    (
        b"18446744073709551615 1_'D1_",
        "Number 18446744073709551615 Constant 1_'D1_",
    ),
    (b"\\a+b \\next\t\\\xff\n", "Name a+b Name next Name ?"),
    (
        b"\"\" \"a\\\"b\\\\\" \"//\"",
        "Quoted \"\" Quoted \"a\\\"b\\\\\" Quoted \"//\"",
    ),
    (b"a//b\nc/*d\n**/e/**/f//", "Name a Name c Name e Name f"),
    (b"\x0b\x0c\t", ""),
    (b"", ""),
];

/// The tokens of a short text.
fn read(alloc: Global, text: &[u8]) -> Result<Tokens, LexFault> {
    if text.len() > 100 {
        return Err(LexFault::NoMemory);
    }
    lex(alloc, text)
}

/// The kinds and the bytes of tokens.
fn shown(alloc: Global, tokens: &Tokens) -> Result<String, NoMemory> {
    let mut all = String::new(alloc);
    for token in tokens.as_slice() {
        if !all.is_empty() {
            all.push(' ')?;
        }
        let kind = token.kind;
        all.push_str(format!(in alloc; "{kind:?} ")?.as_str())?;
        for byte in token.text.as_slice() {
            all.push(if byte.is_ascii() { *byte as char } else { '?' })?;
        }
    }
    Ok(all)
}

#[test]
fn reads_each_keyword_and_punctuation(rt: HostRuntime) -> Result<(), Fail> {
    for line in SINGLE.trim().split('\n') {
        let (text, kind) = line.split_once(' ').ok_or("a line without a kind")?;
        let tokens = read(rt.alloc(), text.as_bytes())?;
        let wanted = format!(in rt.alloc(); "{kind} {text}")?;
        assert_eq!(rt; shown(rt.alloc(), &tokens)?, wanted);
    }
    Ok(())
}

#[test]
fn takes_the_longest_token(rt: HostRuntime) -> Result<(), Fail> {
    for (text, wanted) in &TEXTS {
        let tokens = read(rt.alloc(), text)?;
        assert_eq!(rt; shown(rt.alloc(), &tokens)?.as_str(), *wanted);
    }
    Ok(())
}

/// The places of the tokens of `PLACED`: the bytes, where they start and end, and the line and the column.
const PLACES: [(&[u8], u32, u32, u32, u32); 4] = [
    (b"ab", 0, 2, 1, 1),
    (b"c", 10, 11, 3, 3),
    (b"de", 12, 16, 3, 5),
    (b";", 16, 17, 3, 9),
];

const PLACED: &[u8] = b"ab\r\n /*\n*/c \\de ;";

/// Whether a token stands there.
fn stands(token: &Token, place: &(&[u8], u32, u32, u32, u32)) -> bool {
    let (text, start, end, line, column) = place;
    token.text.as_slice() == *text
        && (token.start, token.end) == (*start, *end)
        && (token.place.line, token.place.column) == (*line, *column)
}

#[test]
fn says_where_tokens_stand(rt: HostRuntime) -> Result<(), Fail> {
    let tokens = read(rt.alloc(), PLACED)?;
    assert_eq!(rt; tokens.len(), PLACES.len());
    for (token, place) in tokens.as_slice().iter().zip(&PLACES) {
        assert!(rt; stands(token, place));
    }
    Ok(())
}
