// What a directive of a text is.
ghost use Rattle.std.specs.Prelude.{◌≡◌};
ghost use Rattle.owed.specs.Owed as spec;

use psl_tree::Kind;

/// Whether a directive is an assumption.
pub(crate) fn is_assumed(kind: Kind) -> bool
    ensures { result ≡ spec.is_assumption kind }
{
    match kind {
        Kind::Assume => true,
        Kind::Assert | Kind::Cover => false,
    }
}

/// Whether a directive is asked: an assertion is, and a cover where covers are to be.
pub fn is_asked(covers: bool, kind: Kind) -> bool
    ensures { result ≡ spec.is_asked covers kind }
{
    match kind {
        Kind::Assert => true,
        Kind::Assume => false,
        Kind::Cover => covers,
    }
}
