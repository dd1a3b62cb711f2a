// The two literals that a clause is to watch, and the levels at which it can.
ghost use Rattle.std.specs.Prelude.{◌≡◌, ℕ, ◌+◌, ◌*◌, ◌<◌, ◌≤◌, length, IfSome};
ghost use Rattle.std.specs.List.{All};
ghost use Rattle.cdcl_incremental.specs.Levels.{IsFalseAtLevel, IsOpenBelow, AreWatches};

use cdcl::other_literal;
use cdcl_conflict::level_of;
use cdcl_trail::{Trail, opposite};

/// Two literals, and at how many levels, from the lowest on, neither of them is false.
#[derive(Clone, Copy)]
pub(crate) struct Watches {
    pub(crate) first: u32,
    pub(crate) second: u32,
    pub(crate) levels: usize,
}

/// A literal, and at how many levels, from the lowest on, it is not false.
#[derive(Clone, Copy)]
struct OpenLiteral {
    literal: u32,
    levels: usize,
}

/// At how many levels, from the lowest on, a literal is not false. That is one more than there are above the lowest
/// where it is false at none.
fn open_levels(trail: &Trail, literal: u32) -> usize
    requires { literal < 2 * trail.now.variables }
    ensures opens { IsOpenBelow trail.now literal result }
    ensures false_ { (level : ℕ) → result ≤ level → level ≤ length trail.now.limits
        → IsFalseAtLevel trail.now literal level }
{
    let limits = trail.limits();
    if trail.is_true(opposite(literal)) {
        level_of(trail.places()[(literal / 2) as usize], limits)
    } else {
        limits.len() + 1
    }
}

impl OpenLiteral {
    /// A literal with its levels.
    fn of(trail: &Trail, literal: u32) -> OpenLiteral
        requires { literal < 2 * trail.now.variables }
        ensures is { result.literal ≡ literal }
        ensures opens { IsOpenBelow trail.now literal result.levels }
    {
        OpenLiteral {
            literal,
            levels: open_levels(trail, literal),
        }
    }
}

/// The two literals of a clause that are false at the fewest levels. None where all of its literals are the same.
pub(crate) fn watches_of(trail: &Trail, clause: &[u32]) -> Option<Watches>
    requires { All (λ literal. literal < 2 * trail.now.variables) clause.now }
    ensures { IfSome result (AreWatches trail.now clause.now) }
{
    let [head, ..] = clause else {
        return None;
    };
    let Some(other) = other_literal(clause, *head) else {
        return None;
    };
    let mut first = OpenLiteral::of(trail, *head);
    let mut second = OpenLiteral::of(trail, other);
    for literal in clause {
        let next = OpenLiteral::of(trail, *literal);
        if next.literal == first.literal {
            continue;
        }
        if next.levels > first.levels {
            second = first;
            first = next;
        } else if next.levels > second.levels {
            second = next;
        }
    }
    Some(Watches {
        first: first.literal,
        second: second.literal,
        levels: first.levels.min(second.levels),
    })
}
