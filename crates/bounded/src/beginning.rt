// How a run begins, and its loop.
ghost use Rattle.std.specs.Prelude.{◌≡◌, map, IfOk, IsTrue, ◌<◌, length};
ghost use Rattle.std.specs.List.{range_with_len};
ghost use Rattle.clauses.specs.declared.flat.TheConstants.{MOST_VARIABLES};
ghost use Rattle.clauses.specs.Literals.{clause_within};
ghost use Rattle.bounded.specs.Adding.{Puts};
ghost use Rattle.bounded.specs.Places.{begins_at};
ghost use Rattle.bounded.specs.Searches.{first_clauses};

use crate::places::Places;
use crate::putting::put;
use clauses::{Clauses, CnfFault};
use gates_theory::Literals;
use psl_base::NoMemory;
use std::alloc::Global;

// The literals that the loop begins with the valuations of places.
fn begin_literals(alloc: Global, places: &Places<'_>) -> Result<Literals, NoMemory>
    ensures are { IfOk result (λ literals. literals ≡ map
        (begins_at places.now.automaton.now places.now.last places.now.before) (range_with_len 0 places.now.last)) }
    ensures within { IfOk result (λ literals. IsTrue (clause_within MOST_VARIABLES literals)) }
{
    let mut literals = Literals::new(alloc);
    for place in 0..places.last {
        literals.push(places.begins(place))?;
    }
    Ok(literals)
}

/// The start is owed at the first place, and the loop begins somewhere.
pub(crate) fn add_first(
    alloc: Global,
    clauses: &mut Clauses,
    places: &Places<'_>,
) -> Result<(), CnfFault>
    ensures { Puts clauses.old clauses.new
        (first_clauses places.now.automaton.now places.now.last places.now.before) result }
{
    let start = places.owed(0, places.automaton.start());
    put(clauses, &[start])?;
    let literals = begin_literals(alloc, places)?;
    put(clauses, literals.as_slice())
}
