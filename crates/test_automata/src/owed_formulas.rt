// What no clause says: that the calls succeed with ample memory.
use owed::{assumed_size, owed, owed_size};
use psl_base::{Items, NoMemory, Place};
use psl_tree::{Atom, Bool, Directive, Edge, Fl, Kind, Unit, measure};
use std::alloc::Global;
use std::test::Fail;

// A directive that asks for a bit of a signal.
fn directive(number: u32, kind: Kind, signal: u32) -> Directive {
    let atom = Atom {
        signal,
        bit: 0,
        edge: Edge::Value,
    };
    Directive {
        number,
        kind,
        label: None,
        place: Place { line: 1, column: 1 },
        formula: Fl::Now(Bool::Test(atom)),
    }
}

// `assume a; cover b; assume b;`
fn text(alloc: Global) -> Result<Unit, NoMemory> {
    let mut unit = Items::new(alloc);
    unit.push(directive(1, Kind::Assume, 0))?;
    unit.push(directive(2, Kind::Cover, 1))?;
    unit.push(directive(3, Kind::Assume, 1))?;
    Ok(unit)
}

// The cover itself is denied along with what is assumed, so it is not negated twice.
#[test]
fn a_cover_is_owed_unmet_under_assumptions(rt: HostRuntime) -> Result<(), Fail> {
    let unit = text(rt.alloc())?;
    let cover = directive(4, Kind::Cover, 2);
    let assumed = assumed_size(rt.alloc(), &unit)?;
    let size = owed_size(rt.alloc(), &cover, assumed)?;
    assert_eq!(rt; size.obligations, 6);
    assert_eq!(rt; size.constructors, 9);
    let formula = owed(rt.alloc(), &unit, &cover)?;
    assert_eq!(rt; measure(&formula), 9);
    Ok(())
}

#[test]
fn an_assertion_is_owed_under_assumptions(rt: HostRuntime) -> Result<(), Fail> {
    let unit = text(rt.alloc())?;
    let assertion = directive(4, Kind::Assert, 2);
    let assumed = assumed_size(rt.alloc(), &unit)?;
    let size = owed_size(rt.alloc(), &assertion, assumed)?;
    assert_eq!(rt; size.obligations, 7);
    assert_eq!(rt; size.constructors, 10);
    assert!(rt; !size.has_large_sequence);
    let formula = owed(rt.alloc(), &unit, &assertion)?;
    assert_eq!(rt; measure(&formula), 10);
    Ok(())
}
