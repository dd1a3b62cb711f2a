/// Why a certificate is refused. Where several stand at one line, the first of them counts.
#[derive(Clone, Copy, Debug, PartialEq, Eq, Drop)]
pub enum CertReason {
    /// A whole line of the header has not its shape, or its number is out of range.
    BadHeader,
    /// A whole line behind the header is neither a clause's or an entry's nor the word that ends its part, or it is an
    /// entry's behind the empty lemma.
    BadLine,
    /// The certificate is not of the directive that was asked for, or this claims nothing.
    WrongAssertion,
    /// A lemma does not pass.
    LemmaFails,
    /// A section ends without the empty lemma.
    NoEmptyClause,
    /// The text ends in this line, before the line feed of the last one.
    EndsInside,
    /// Bytes follow the last line.
    TrailingBytes,
    /// With a lemma that passes, more lemmas of its section are live than may be.
    TooManyLive,
    /// A drop names no live lemma of its section.
    BadDrop,
    /// A literal of a clause names no state bit.
    BadClause,
}

/// What is answered to the text of a certificate.
#[derive(Clone, Copy, Debug, PartialEq, Eq, Drop)]
pub enum CertAnswer {
    /// No line is refused.
    Passed,
    /// The first line that is refused, counted from 1.
    Refused(CertReason, u64),
}
