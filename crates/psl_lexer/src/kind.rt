// The kinds of tokens, and how keywords and punctuation are spelled.
/// What a token is: one kind for each keyword and each punctuation, and four that have a text of
/// their own (IEEE 1850, clause 4.2).
#[derive(Clone, Copy, Debug, PartialEq, Eq)]
pub enum TokenKind {
    /// A name, escaped or not.
    Name,
    /// Decimal digits.
    Number,
    /// A size, a base and digits, as `4'b01`.
    Constant,
    /// A string, in its quotes.
    Quoted,

    /// `always`
    Always,
    /// `never`
    Never,
    /// `next`
    Next,
    /// `next!`
    NextStrong,
    /// `next_a`
    NextA,
    /// `next_a!`
    NextAStrong,
    /// `next_e`
    NextE,
    /// `next_e!`
    NextEStrong,
    /// `next_event`
    NextEvent,
    /// `next_event!`
    NextEventStrong,
    /// `next_event_a`
    NextEventA,
    /// `next_event_a!`
    NextEventAStrong,
    /// `next_event_e`
    NextEventE,
    /// `next_event_e!`
    NextEventEStrong,
    /// `eventually!`
    EventuallyStrong,
    /// `until`
    Until,
    /// `until!`
    UntilStrong,
    /// `until_`
    UntilOverlap,
    /// `until!_`
    UntilStrongOverlap,
    /// `before`
    Before,
    /// `before!`
    BeforeStrong,
    /// `before_`
    BeforeOverlap,
    /// `before!_`
    BeforeStrongOverlap,
    /// `abort`
    Abort,
    /// `async_abort`
    AsyncAbort,
    /// `sync_abort`
    SyncAbort,
    /// `within`
    Within,
    /// `inf`
    Inf,
    /// `true`
    True,
    /// `false`
    False,
    /// `posedge`
    Posedge,
    /// `negedge`
    Negedge,
    /// `assert`
    Assert,
    /// `assume`
    Assume,
    /// `cover`
    Cover,
    /// `report`
    Report,
    /// `vunit`
    Vunit,
    /// `sequence`
    Sequence,
    /// `property`
    Property,
    /// `default`
    Default,
    /// `clock`
    Clock,

    /// `|->`
    Implies,
    /// `|=>`
    ImpliesNext,
    /// `<->`
    Iff,
    /// `[->`
    GotoOpen,
    /// `[+]`
    PlusRepeat,
    /// `[*`
    StarOpen,
    /// `[=`
    EqualsOpen,
    /// `->`
    Arrow,
    /// `&&`
    AndAnd,
    /// `||`
    OrOr,
    /// `==`
    EqualEqual,
    /// `!=`
    NotEqual,
    /// `<=`
    LessEqual,
    /// `>=`
    GreaterEqual,
    /// `(`
    ParenOpen,
    /// `)`
    ParenClose,
    /// `{`
    BraceOpen,
    /// `}`
    BraceClose,
    /// `[`
    BracketOpen,
    /// `]`
    BracketClose,
    /// `;`
    Semicolon,
    /// `:`
    Colon,
    /// `.`
    Dot,
    /// `@`
    At,
    /// `!`
    Not,
    /// `&`
    Ampersand,
    /// `|`
    Bar,
    /// `=`
    Equals,
    /// `<`
    Less,
    /// `>`
    Greater,
}

/// The keywords that have the form of a name.
pub const WORDS: [(&[u8], TokenKind); 30] = [
    (b"always", TokenKind::Always),
    (b"never", TokenKind::Never),
    (b"next", TokenKind::Next),
    (b"next_a", TokenKind::NextA),
    (b"next_e", TokenKind::NextE),
    (b"next_event", TokenKind::NextEvent),
    (b"next_event_a", TokenKind::NextEventA),
    (b"next_event_e", TokenKind::NextEventE),
    (b"until", TokenKind::Until),
    (b"until_", TokenKind::UntilOverlap),
    (b"before", TokenKind::Before),
    (b"before_", TokenKind::BeforeOverlap),
    (b"abort", TokenKind::Abort),
    (b"async_abort", TokenKind::AsyncAbort),
    (b"sync_abort", TokenKind::SyncAbort),
    (b"within", TokenKind::Within),
    (b"inf", TokenKind::Inf),
    (b"true", TokenKind::True),
    (b"false", TokenKind::False),
    (b"posedge", TokenKind::Posedge),
    (b"negedge", TokenKind::Negedge),
    (b"assert", TokenKind::Assert),
    (b"assume", TokenKind::Assume),
    (b"cover", TokenKind::Cover),
    (b"report", TokenKind::Report),
    (b"vunit", TokenKind::Vunit),
    (b"sequence", TokenKind::Sequence),
    (b"property", TokenKind::Property),
    (b"default", TokenKind::Default),
    (b"clock", TokenKind::Clock),
];

/// The words that are a keyword with a `!` directly behind them.
pub const STRONG_WORDS: [(&[u8], TokenKind); 9] = [
    (b"next", TokenKind::NextStrong),
    (b"next_a", TokenKind::NextAStrong),
    (b"next_e", TokenKind::NextEStrong),
    (b"next_event", TokenKind::NextEventStrong),
    (b"next_event_a", TokenKind::NextEventAStrong),
    (b"next_event_e", TokenKind::NextEventEStrong),
    (b"eventually", TokenKind::EventuallyStrong),
    (b"until", TokenKind::UntilStrong),
    (b"before", TokenKind::BeforeStrong),
];

/// The words that are a keyword with `!_` directly behind them.
pub const OVERLAPPING_WORDS: [(&[u8], TokenKind); 2] = [
    (b"until", TokenKind::UntilStrongOverlap),
    (b"before", TokenKind::BeforeStrongOverlap),
];

/// The punctuation, longest first.
pub const MARKS: [(&[u8], TokenKind); 30] = [
    (b"|->", TokenKind::Implies),
    (b"|=>", TokenKind::ImpliesNext),
    (b"<->", TokenKind::Iff),
    (b"[->", TokenKind::GotoOpen),
    (b"[+]", TokenKind::PlusRepeat),
    (b"[*", TokenKind::StarOpen),
    (b"[=", TokenKind::EqualsOpen),
    (b"->", TokenKind::Arrow),
    (b"&&", TokenKind::AndAnd),
    (b"||", TokenKind::OrOr),
    (b"==", TokenKind::EqualEqual),
    (b"!=", TokenKind::NotEqual),
    (b"<=", TokenKind::LessEqual),
    (b">=", TokenKind::GreaterEqual),
    (b"(", TokenKind::ParenOpen),
    (b")", TokenKind::ParenClose),
    (b"{", TokenKind::BraceOpen),
    (b"}", TokenKind::BraceClose),
    (b"[", TokenKind::BracketOpen),
    (b"]", TokenKind::BracketClose),
    (b";", TokenKind::Semicolon),
    (b":", TokenKind::Colon),
    (b".", TokenKind::Dot),
    (b"@", TokenKind::At),
    (b"!", TokenKind::Not),
    (b"&", TokenKind::Ampersand),
    (b"|", TokenKind::Bar),
    (b"=", TokenKind::Equals),
    (b"<", TokenKind::Less),
    (b">", TokenKind::Greater),
];
