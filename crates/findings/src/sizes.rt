ghost use Rattle.std.specs.Prelude.{◌-◌, ◌^◌, ◌<◌, List, OnOk, IfErr};
ghost use Rattle.findings.specs.Sizes.{AreWithin, IsSizeFault, MayRefuse};
ghost use Rattle.owed.specs.Owed.{plain_assumed, plain_owed};
ghost use Rattle.owed.specs.Sized.{IsSized};
ghost use Rattle.owed.specs.Sizes.{AreSizesOf};
ghost use Rattle.psl_tree.specs.declared.directive.Directive.{Directive};

use netlist::Netlist;
use owed::{Size, assumed_size, check_sizes, is_asked};
use psl_tree::{Directive, LimitFault, Unit, UnitFault};
use std::alloc::Global;

/// Whether all directives of a text that are asked, its covers among them or not, are within the limits of a search up to a
/// depth.
///
/// # Errors
///
/// Exactly the first limit that the first of them passes; and `NoMemory` if memory is refused.
pub fn check_all(
    alloc: Global,
    unit: &Unit,
    netlist: &Netlist,
    depth: u32,
    covers: bool,
) -> Result<(), UnitFault>
    requires { depth < 2 ^ 32 - 1 }
    ensures within { OnOk result (AreWithin netlist.now depth covers unit.now) }
    ensures fault { IfErr result (IsSizeFault netlist.now depth covers unit.now) }
{
    let assumed = assumed_size(alloc, unit)?;
    for directive in unit.as_slice() {
        if is_asked(covers, directive.kind) {
            check_one(alloc, directive, assumed, netlist, depth)?;
        }
    }
    Ok(())
}

// Whether a directive of a text is within the limits, where `assumed_size` has told how large what the text assumes is.
fn check_one(
    alloc: Global,
    directive: &Directive,
    assumed: Option<Size>,
    netlist: &Netlist,
    depth: u32,
) -> Result<(), UnitFault>
    requires { depth < 2 ^ 32 - 1 }
    ensures within { OnOk result ((unit : List Directive) → AreSizesOf assumed (plain_assumed unit)
        → IsSized netlist.now depth (plain_owed unit directive.now)) }
    ensures fault { IfErr result (λ fault. (unit : List Directive) → AreSizesOf assumed (plain_assumed unit)
        → MayRefuse netlist.now depth unit directive.now fault) }
{
    match check_sizes(alloc, directive, assumed, netlist, depth) {
        Ok(()) => Ok(()),
        Err(LimitFault::TooLarge(limit)) => Err(UnitFault::TooLarge(directive.number, limit)),
        Err(LimitFault::NoMemory) => Err(UnitFault::NoMemory),
    }
}
