// Gates of two literals, as terms.
ghost use Rattle.std.specs.Prelude.{IsTrue};
ghost use Rattle.gates_theory.specs.Terms.Term.{Literal, Equality};
ghost use Rattle.clauses.specs.Literals.{is_literal};
ghost use Rattle.run_gates.specs.Building.{Builds};
ghost use Rattle.run_terms.specs.Booleans as booleans;
ghost use Rattle.run_terms.specs.Tables.{guarded};

use clauses::CnfFault;
use run_gates::Builder;

/// If a literal is true, so is another.
pub(crate) fn add_implied(gates: &mut Builder, guard: i32, other: i32) -> Result<i32, CnfFault>
    requires guard { IsTrue (is_literal guard) }
    requires other { IsTrue (is_literal other) }
    ensures { Builds gates.old gates.new (guarded guard (Literal other)) result }
{
    gates.implied(guard, other)
}

/// One of two literals is true.
pub(crate) fn add_one(gates: &mut Builder, first: i32, second: i32) -> Result<i32, CnfFault>
    requires first { IsTrue (is_literal first) }
    requires second { IsTrue (is_literal second) }
    ensures { Builds gates.old gates.new (booleans.either (Literal first) (Literal second)) result }
{
    gates.either(first, second)
}

/// Two literals have one value.
pub(crate) fn add_same(gates: &mut Builder, first: i32, second: i32) -> Result<i32, CnfFault>
    requires first { IsTrue (is_literal first) }
    requires second { IsTrue (is_literal second) }
    ensures { Builds gates.old gates.new (Equality (Literal first) (Literal second)) result }
{
    gates.equal(first, second)
}
