ghost use Rattle.std.specs.Prelude.{◌≡◌};
ghost use Rattle.sat_dimacs.specs.Faults.{place_of};

use psl_base::Place;
use thiserror::Error;

/// Why a text is no formula, with the place of the word at which this shows. Where the text ends too early, that is the
/// place of its end.
#[derive(Clone, Copy, Debug, PartialEq, Eq, Drop, Error)]
pub enum DimacsFault {
    /// The first word is not `p`, or there is none.
    #[error("a header `p cnf VARIABLES CLAUSES` is missing")]
    NoHeader(Place),
    /// Not `cnf` behind the `p`, or no number behind that, or none behind the first number, or one above
    /// 2,147,483,647.
    #[error("the header is not `p cnf VARIABLES CLAUSES`")]
    BadHeader(Place),
    /// A `p` among the clauses.
    #[error("a second header")]
    SecondHeader(Place),
    /// A word among the clauses that is neither a literal nor `0`.
    #[error("not a literal")]
    NotALiteral(Place),
    /// A literal of a variable past those of the header.
    #[error("a variable past those of the header")]
    LiteralTooLarge(Place),
    /// A word behind the last of the clauses of which the header speaks.
    #[error("more clauses than the header says")]
    MoreClauses(Place),
    /// The text ends before the last of these clauses.
    #[error("fewer clauses than the header says")]
    FewerClauses(Place),
    /// The text ends inside a clause.
    #[error("the last clause has no 0 at its end")]
    OpenClause(Place),
    /// With the clause that ends here there are more than 400,000,000 words, where a clause counts its literals and one
    /// more.
    #[error("the formula is too large")]
    TooLarge(Place),
    /// The allocator refused memory.
    #[error("out of memory")]
    NoMemory,
}

impl DimacsFault {
    /// The place of the fault, unless memory was refused.
    pub fn place(&self) -> Option<Place>
        ensures { result ≡ place_of self.now }
    {
        match *self {
            DimacsFault::NoHeader(place) => Some(place),
            DimacsFault::BadHeader(place) => Some(place),
            DimacsFault::SecondHeader(place) => Some(place),
            DimacsFault::NotALiteral(place) => Some(place),
            DimacsFault::LiteralTooLarge(place) => Some(place),
            DimacsFault::MoreClauses(place) => Some(place),
            DimacsFault::FewerClauses(place) => Some(place),
            DimacsFault::OpenClause(place) => Some(place),
            DimacsFault::TooLarge(place) => Some(place),
            DimacsFault::NoMemory => None,
        }
    }
}
