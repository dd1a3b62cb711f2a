// Which clauses may go.
ghost use Rattle.std.specs.Bool.{OnFalse};
ghost use Rattle.std.specs.List.{All};
ghost use Rattle.cdcl.specs.Reducing.{IsNoReason};

use cdcl_trail::Trail;

/// Whether a literal of the trail is true because of a clause, which is given with its number.
pub fn is_reason(trail: &Trail, clause: &[u32], number: u32) -> bool
    ensures { OnFalse result (All (IsNoReason trail.now number) clause.now) }
{
    for literal in clause {
        if is_reason_of(trail, *literal, number) {
            return true;
        }
    }
    false
}

/// Whether a literal is true because of the clause of a number.
fn is_reason_of(trail: &Trail, literal: u32, number: u32) -> bool
    ensures { OnFalse result (IsNoReason trail.now number literal) }
{
    let variable = (literal / 2) as usize;
    let places = trail.places();
    let literals = trail.literals();
    let reasons = trail.reasons();
    if variable >= places.len() {
        return false;
    }
    let place = places[variable] as usize;
    place < literals.len() && reasons[place] == number && literals[place] == literal
}
