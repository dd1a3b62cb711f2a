// What is left of a text.
ghost use Rattle.std.specs.Prelude.{◌+◌, ◌<◌, ◌≤◌, length};
ghost use Rattle.psl_base.specs.Places.{file_limit};

use cert_theory::CertReason;

/// The lines of a text that were not read yet.
#[derive(Debug, Drop)]
pub struct Reading<'a> {
    /// What is left of the text.
    pub rest: &'a [u8],
    /// The number of its first line, counted from 1.
    pub line: u64,
    pub ghost some: { 0 < line },
    pub ghost few: { line + length rest.now ≤ file_limit + 1 },
}

/// Why a certificate is refused, and at which line.
#[derive(Clone, Copy, Debug, PartialEq, Eq, Drop)]
pub struct Refusal {
    pub reason: CertReason,
    /// Counted from 1.
    pub line: u64,
}
