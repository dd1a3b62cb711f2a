// What is claimed by a certificate, and the directive that it is claimed of.
ghost use Rattle.std.specs.Prelude.{◌≡◌};
ghost use Rattle.std.specs.Option.{option_copied};
ghost use Rattle.cert_check.specs.Claims as spec;

use cert_theory::Asked;
use netlist::Netlist;
use owed::is_asked;
use psl_tree::{Directive, Unit};

/// That each run of a netlist satisfies what is owed of a directive of a text.
#[derive(Clone, Copy)]
pub(crate) struct Claim<'a> {
    pub(crate) netlist: &'a Netlist,
    pub(crate) unit: &'a Unit,
    pub(crate) directive: &'a Directive,
}

/// The directive of a number.
pub(crate) fn directive_of(unit: &Unit, number: u32) -> Option<&Directive>
    ensures { option_copied result ≡ spec.directive_of unit.now number }
{
    unit.as_slice()
        .iter()
        .find(|directive| directive.number == number)
}

/// What is asked for by a number.
pub(crate) fn asked_of(unit: &Unit, number: u32) -> Asked
    ensures { result ≡ spec.asked_of unit.now number }
{
    match directive_of(unit, number) {
        Some(directive) => Asked {
            number,
            has_claim: is_asked(true, directive.kind),
        },
        None => Asked {
            number,
            has_claim: false,
        },
    }
}
