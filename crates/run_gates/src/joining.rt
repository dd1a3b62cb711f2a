// Literals that are joined one behind another.
ghost use Rattle.std.specs.Prelude.{IfSome, IsTrue};
ghost use Rattle.clauses.specs.Literals.{is_literal};
ghost use Rattle.gates_theory.specs.Terms.{with_conjunction};
ghost use Rattle.run_gates.specs.Building.{Joins, with_either};

use crate::Builder;
use clauses::CnfFault;

/// The conjunction with what was found before, if there is such.
pub fn add_also(gates: &mut Builder, found: Option<i32>, other: i32) -> Result<i32, CnfFault>
    requires found { IfSome found (λ literal. IsTrue (is_literal literal)) }
    requires other { IsTrue (is_literal other) }
    ensures { Joins with_conjunction gates.old gates.new found other result }
{
    match found {
        Some(literal) => gates.and(literal, other),
        None => Ok(other),
    }
}

/// One of what was found before, if there is such, and another literal.
pub fn add_or(gates: &mut Builder, found: Option<i32>, other: i32) -> Result<i32, CnfFault>
    requires found { IfSome found (λ literal. IsTrue (is_literal literal)) }
    requires other { IsTrue (is_literal other) }
    ensures { Joins with_either gates.old gates.new found other result }
{
    match found {
        Some(literal) => gates.either(literal, other),
        None => Ok(other),
    }
}
