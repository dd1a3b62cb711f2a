// What is told where a formula of clauses is refused.
ghost use Rattle.std.specs.Prelude.{◌≡◌};
ghost use Rattle.cert_check.specs.Faults as spec;

use clauses::CnfFault;
use psl_tree::{Limit, LimitFault};

/// The fault of a formula that was not made.
pub(crate) fn of_formula(fault: CnfFault) -> LimitFault
    ensures { result ≡ spec.of_formula fault }
{
    match fault {
        CnfFault::TooLarge => LimitFault::TooLarge(Limit::Formula),
        CnfFault::NoMemory => LimitFault::NoMemory,
    }
}
