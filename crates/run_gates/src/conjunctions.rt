// The conjunction of literals.
ghost use Rattle.std.specs.Prelude.{IsTrue, All};
ghost use Rattle.clauses.specs.Literals.{is_literal};
ghost use Rattle.run_gates.specs.Building.{Builds};
ghost use Rattle.run_terms.specs.Tables.{all_of};

use crate::Builder;
use crate::booleans::add_constant;
use crate::joining::add_also;
use clauses::CnfFault;

/// All of some literals are true.
pub fn add_all(gates: &mut Builder, literals: &[i32]) -> Result<i32, CnfFault>
    requires { All (λ literal. IsTrue (is_literal literal)) literals.now }
    ensures { Builds gates.old gates.new (all_of literals.now) result }
{
    let mut found = None;
    for i in 0..literals.len() {
        found = Some(add_also(gates, found, literals[i])?);
    }
    match found {
        Some(literal) => Ok(literal),
        None => add_constant(gates, true),
    }
}
