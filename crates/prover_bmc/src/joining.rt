// Literals that are made of two.
ghost use Rattle.std.specs.Prelude.{IfOk, OnOk};
ghost use Rattle.gates_builder.specs.Adding.{IsOf};
ghost use Rattle.prover_bmc.specs.Later.{IsLater};

use clauses::CnfFault;
use gates_builder::Builder;

/// A literal that is true where both are.
pub(crate) fn both(builder: &mut Builder, first: i32, second: i32) -> Result<i32, CnfFault>
    requires first { IsOf builder.old first }
    requires second { IsOf builder.old second }
    ensures later { OnOk result (IsLater builder.old builder.new) }
    ensures of { IfOk result (IsOf builder.new) }
{
    let both = builder.and(first, second)?;
    Ok(both)
}

/// A literal that is true where one of two is.
pub(crate) fn either(builder: &mut Builder, first: i32, second: i32) -> Result<i32, CnfFault>
    requires first { IsOf builder.old first }
    requires second { IsOf builder.old second }
    ensures later { OnOk result (IsLater builder.old builder.new) }
    ensures of { IfOk result (IsOf builder.new) }
{
    let either = builder.or(first, second)?;
    Ok(either)
}
