// Which directives are within the limits of the formulas for a netlist.
ghost use Rattle.std.specs.Prelude.{◌≡◌, ◌-◌, ◌^◌, ◌<◌, ◌≤◌, nat_lt, List, OnOk, IfErr};
ghost use Rattle.gates.specs.declared.limits.TheConstants.{MOST_WORK};
ghost use Rattle.owed.specs.Owed.{plain_assumed, plain_owed};
ghost use Rattle.owed.specs.Sizes.{AreSizesOf, IsSizeOf};
ghost use Rattle.owed.specs.Sized.{IsSized, MayRefuse, work_of};
ghost use Rattle.psl_tree.specs.declared.counts.TheConstants.{MOST_OBLIGATIONS};
ghost use Rattle.psl_tree.specs.Trees.{Formula};
ghost use Rattle.psl_tree.specs.declared.directive.Directive.{Directive};

use crate::size::{Size, owed_size};
use gates::fits;
use netlist::Netlist;
use psl_tree::{Directive, Limit, LimitFault, MOST_OBLIGATIONS};
use std::alloc::Global;

/// Whether what is owed of a directive is within the limits of formulas up to a depth or a window, which have one position
/// more, where `assumed_size` has told how large what its text assumes is. Nothing of it is built but one formula at a
/// time.
///
/// # Errors
///
/// The first of the limits that it passes, in their order; that of formulas is told by those who make them. `NoMemory` if
/// memory is refused.
pub fn check_sizes(
    alloc: Global,
    directive: &Directive,
    assumed: Option<Size>,
    netlist: &Netlist,
    depth: u32,
) -> Result<(), LimitFault>
    requires { depth < 2 ^ 32 - 1 }
    ensures sized { OnOk result ((unit : List Directive) → AreSizesOf assumed (plain_assumed unit)
        → IsSized netlist.now depth (plain_owed unit directive.now)) }
    ensures fault { IfErr result (λ fault. (unit : List Directive) → AreSizesOf assumed (plain_assumed unit)
        → MayRefuse netlist.now depth (plain_owed unit directive.now) fault) }
{
    let size = owed_size(alloc, directive, assumed)?;
    if size.has_large_sequence {
        return Err(LimitFault::TooLarge(Limit::Sere));
    }
    if size.obligations > MOST_OBLIGATIONS {
        return Err(LimitFault::TooLarge(Limit::Automaton));
    }
    if is_bulky(netlist, size, depth) {
        return Err(LimitFault::TooLarge(Limit::Unroll));
    }
    Ok(())
}

// Whether what is owed, of such a size, and the netlist are too large for one position more than the depth.
fn is_bulky(netlist: &Netlist, size: Size, depth: u32) -> bool
    requires depth { depth < 2 ^ 32 - 1 }
    requires obligations { size.obligations ≤ MOST_OBLIGATIONS }
    ensures { (formula : Formula) → IsSizeOf size formula → result ≡ nat_lt MOST_WORK (work_of netlist.now depth formula) }
{
    let square = size.obligations * size.obligations;
    let bulk = netlist
        .bulk()
        .saturating_add(square)
        .saturating_add(size.constructors);
    !fits(depth + 1, bulk)
}
