// The bits of a position.
ghost use Rattle.std.specs.Prelude.{◌≡◌, ◌+◌, ◌<◌, ◌≤◌, IsTrue};
ghost use Rattle.clauses.specs.declared.flat.TheConstants.{MOST_VARIABLES};
ghost use Rattle.clauses.specs.Literals.{is_literal};
ghost use Rattle.run_terms.specs.Positions as spec;
ghost use Rattle.run_terms.specs.Positions.{position_width};

/// Where the bits of a position stand: how many signals there are, and how many variables are before its bits.
#[derive(Clone, Copy, Debug)]
pub struct Position {
    pub signals: u32,
    pub base: u32,
}

impl Position {
    /// There is a valuation before.
    pub fn had(self) -> i32
        requires { self.base + position_width self.signals ≤ MOST_VARIABLES }
        ensures is { result ≡ spec.had self.base }
        ensures literal { IsTrue (is_literal result) }
    {
        (self.base + 1) as i32
    }

    /// The value of a signal in the valuation before.
    pub fn earlier(self, signal: u32) -> i32
        requires fits { self.base + position_width self.signals ≤ MOST_VARIABLES }
        requires below { signal < self.signals }
        ensures is { result ≡ spec.earlier self.base signal }
        ensures literal { IsTrue (is_literal result) }
    {
        (self.base + 1 + signal + 1) as i32
    }

    /// The value of a signal in the valuation.
    pub fn current(self, signal: u32) -> i32
        requires fits { self.base + position_width self.signals ≤ MOST_VARIABLES }
        requires below { signal < self.signals }
        ensures is { result ≡ spec.current self.signals self.base signal }
        ensures literal { IsTrue (is_literal result) }
    {
        (self.base + 1 + self.signals + signal + 1) as i32
    }
}
