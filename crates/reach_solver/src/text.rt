// The clauses of a formula as one list, which is compared at once.
ghost use Rattle.std.specs.Prelude.{◌≡◌, ◌++◌, ◌∷◌, pos, length, IfOk, OnOk};
ghost use Rattle.reach_solver.specs.Texts as spec;

use crate::solver::Literals;
use clauses::Cnf;
use psl_base::NoMemory;
use std::alloc::Global;

/// The clauses of a formula as one list: of each how many literals it has, and then these.
///
/// # Errors
///
/// `NoMemory` if memory is refused.
pub fn text_of(alloc: Global, formula: &Cnf) -> Result<Literals, NoMemory>
    ensures { IfOk result (λ text. text ≡ spec.text_of formula.now.clauses) }
{
    let mut text = Literals::new(alloc);
    for place in 0..formula.clauses.len() {
        add_clause(&mut text, formula.clauses.at(place))?;
    }
    Ok(text)
}

/// Adds how many literals a clause has, and then these.
fn add_clause(text: &mut Literals, clause: &[i32]) -> Result<(), NoMemory>
    ensures { OnOk result (text.new ≡ text.old ++ pos (length clause.now) ∷ clause.now) }
{
    let Ok(count) = i32::try_from(clause.len()) else {
        return Err(NoMemory);
    };
    text.push(count)?;
    append(text, clause)
}

/// Adds literals at the end.
pub(crate) fn append(all: &mut Literals, literals: &[i32]) -> Result<(), NoMemory>
    ensures { OnOk result (all.new ≡ all.old ++ literals.now) }
{
    for literal in literals {
        all.push(*literal)?;
    }
    Ok(())
}
