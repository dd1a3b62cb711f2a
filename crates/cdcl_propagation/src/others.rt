// The literals that a clause keeps beside the two that it watches.
ghost use Rattle.std.specs.Prelude.{◌≡◌, map, cond, nat_eq};
ghost use Rattle.std.specs.Bool.{OnTrue};
ghost use Rattle.std.specs.List.{All, Contains};
ghost use Rattle.cdcl_propagation.specs.Watching.{spares_of, IsAmong, AreOthers};

use crate::watch::{Others, Pair};

/// Some literals of a clause beside the two that it watches.
pub(crate) fn others_of(clause: &[u32], first: u32, second: u32) -> Others
    requires { Contains clause.now first }
    ensures { AreOthers clause.now record { first = first; second = second; others = result } }
{
    let third = literal_at(clause, 2, first);
    let fourth = literal_at(clause, 3, third);
    let fifth = literal_at(clause, 4, fourth);
    let sixth = literal_at(clause, 5, fifth);
    let seventh = literal_at(clause, 6, sixth);
    let others = Others {
        third,
        fourth,
        fifth,
        sixth,
        seventh,
        is_whole: false,
    };
    let pair = Pair {
        first,
        second,
        others,
    };
    Others {
        is_whole: has_all(pair, clause),
        ..others
    }
}

/// The literal at a place of a clause, or another one where there is no such place.
fn literal_at(clause: &[u32], place: usize, other: u32) -> u32
    requires { Contains clause.now other }
    ensures { Contains clause.now result }
{
    if place < clause.len() {
        clause[place]
    } else {
        other
    }
}

/// Whether a clause has no literals but those that are given.
fn has_all(pair: Pair, clause: &[u32]) -> bool
    ensures { OnTrue result (All (IsAmong pair) clause.now) }
{
    for literal in clause {
        if !has(pair, *literal) {
            return false;
        }
    }
    true
}

/// Whether a literal is watched, or one of the others that are given.
fn has(pair: Pair, literal: u32) -> bool
    ensures { OnTrue result (IsAmong pair literal) }
{
    pair.first == literal || pair.second == literal || is_spare(pair.others, literal)
}

/// Whether a literal is one of those.
fn is_spare(others: Others, literal: u32) -> bool
    ensures { OnTrue result (Contains (spares_of others) literal) }
{
    spares(others).contains(&literal)
}

/// The literals, each at its place.
#[inline(always)]
pub(crate) fn spares(others: Others) -> [u32; 5]
    ensures { result ≡ spares_of others }
{
    [
        others.third,
        others.fourth,
        others.fifth,
        others.sixth,
        others.seventh,
    ]
}

/// The others, where one is watched from now on, and this one is not any more.
#[inline(always)]
pub(crate) fn exchanged(others: Others, watched: u32, literal: u32) -> Others
    ensures spares { spares_of result ≡ map (λ spare. cond (nat_eq spare watched) literal spare) (spares_of others) }
    ensures whole { result.is_whole ≡ others.is_whole }
{
    Others {
        third: unless_watched(others.third, watched, literal),
        fourth: unless_watched(others.fourth, watched, literal),
        fifth: unless_watched(others.fifth, watched, literal),
        sixth: unless_watched(others.sixth, watched, literal),
        seventh: unless_watched(others.seventh, watched, literal),
        is_whole: others.is_whole,
    }
}

/// A literal, or the one in its place where it is watched.
#[inline(always)]
fn unless_watched(spare: u32, watched: u32, literal: u32) -> u32
    ensures { result ≡ cond (nat_eq spare watched) literal spare }
{
    if spare == watched { literal } else { spare }
}
