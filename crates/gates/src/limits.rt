ghost use Rattle.std.specs.Prelude.{◌≡◌, ◌*◌, nat_le};
ghost use Rattle.gates.specs.declared.limits.TheConstants.{MOST_WORK};

/// The most that positions times positions times bulk may be.
pub const MOST_WORK: u128 = 40_000_000;

/// Whether a circuit of such a bulk may be taken at so many positions.
pub fn fits(positions: u32, bulk: u64) -> bool
    ensures { result ≡ nat_le (positions * positions * bulk) MOST_WORK }
{
    let square = u64::from(positions) * u64::from(positions);
    u128::from(square) * u128::from(bulk) <= MOST_WORK
}
