// What no clause says: that the calls succeed with ample memory.
ghost use Rattle.std.specs.Prelude.{◌<◌, ◌≤◌, ◌-◌, ◌^◌};

use netlist::{Init, Latch, Latches, Netlist, Signals, Tables};
use owed::{assumed_size, check_sizes};
use prover::{Finding, Options, Task, prove};
use psl_base::{Items, NoMemory, Place, Text, boxed};
use psl_tree::{Atom, Bool, Directive, Edge, Fl, Kind, Name, Names, are_in_range};
use std::alloc::Global;
use std::test::Fail;

// An input i, and nothing else.
fn example(alloc: Global) -> Result<Netlist, NoMemory> {
    let mut names = Names::new(alloc);
    names.push(Name {
        text: Text::from_slice(alloc, b"i")?,
        signal: 0,
        left: 0,
        right: 0,
    })?;
    let inputs = Signals::from_slice(alloc, &[0])?;
    Ok(Netlist::of(
        1,
        inputs,
        Latches::new(alloc),
        Tables::new(alloc),
        names,
        Signals::new(alloc),
    ))
}

// A latch z that is 0 at first and stays as it is, and nothing else.
fn latch_example(alloc: Global) -> Result<Netlist, NoMemory> {
    let mut names = Names::new(alloc);
    names.push(Name {
        text: Text::from_slice(alloc, b"z")?,
        signal: 0,
        left: 0,
        right: 0,
    })?;
    let latch = Latch {
        input: 0,
        output: 0,
        init: Init::Zero,
    };
    let latches = Latches::from_slice(alloc, &[latch])?;
    Ok(Netlist::of(
        1,
        Signals::new(alloc),
        latches,
        Tables::new(alloc),
        names,
        Signals::new(alloc),
    ))
}

// `assert !i;`, or that i does not rise or fall.
fn assertion(alloc: Global, edge: Edge) -> Result<Directive, NoMemory> {
    let test = Bool::Test(Atom {
        signal: 0,
        bit: 0,
        edge,
    });
    Ok(Directive {
        number: 1,
        kind: Kind::Assert,
        label: None,
        place: Place { line: 1, column: 1 },
        formula: Fl::Not(boxed(alloc, Fl::Now(test))?),
    })
}

// `assert always !z;`, that z is not at last 1.
fn always_not(alloc: Global) -> Result<Directive, NoMemory> {
    let test = Bool::Test(Atom {
        signal: 0,
        bit: 0,
        edge: Edge::Value,
    });
    let always = boxed(alloc, Fl::Now(Bool::Const(true)))?;
    let at_last = Fl::Until(always, boxed(alloc, Fl::Now(test))?);
    Ok(Directive {
        number: 1,
        kind: Kind::Assert,
        label: None,
        place: Place { line: 1, column: 1 },
        formula: Fl::Not(boxed(alloc, at_last)?),
    })
}

// What is found of an assertion up to a depth, with inductive clauses sought or not.
fn finding(
    alloc: Global,
    netlist: &Netlist,
    assertion: &Directive,
    depth: u32,
    reach: bool,
) -> Result<Finding, Fail>
    requires some { 1 ≤ depth }
    requires few { depth ≤ 1000 }
{
    let unit = Items::new(alloc);
    let assumed = assumed_size(alloc, &unit)?;
    let Ok(()) = check_sizes(alloc, assertion, assumed, netlist, depth) else {
        return Err("too large".into());
    };
    if !are_in_range(netlist.names(), &assertion.formula) {
        return Err("not of the netlist".into());
    }
    let task = Task {
        unit: &unit,
        directive: assertion,
        netlist,
        options: Options {
            depth,
            visits: 1,
            steps: 1000,
            reach,
        },
    };
    let found = prove(alloc, task)?;
    Ok(found)
}

// What is found of the example up to a depth.
fn found(alloc: Global, edge: Edge, depth: u32) -> Result<Finding, Fail>
    requires some { 1 ≤ depth }
    requires few { depth ≤ 1000 }
{
    let netlist = example(alloc)?;
    let assertion = assertion(alloc, edge)?;
    finding(alloc, &netlist, &assertion, depth, false)
}

// What is found of the latch up to a depth: whether it is never 1.
fn found_of_latch(alloc: Global, depth: u32, reach: bool) -> Result<Finding, Fail>
    requires some { 1 ≤ depth }
    requires few { depth ≤ 1000 }
{
    let netlist = latch_example(alloc)?;
    let assertion = always_not(alloc)?;
    finding(alloc, &netlist, &assertion, depth, reach)
}

#[test]
fn an_input_may_be_1(rt: HostRuntime) -> Result<(), Fail> {
    let Finding::Violated(run) = found(rt.alloc(), Edge::Value, 3)? else {
        return Err("no run was found".into());
    };
    assert_eq!(rt; run.stem.len() + run.loop_part.len(), 1);
    Ok(())
}

#[test]
fn nothing_rises_at_first(rt: HostRuntime) -> Result<(), Fail> {
    let Finding::Proved(certificate) = found(rt.alloc(), Edge::Rise, 3)? else {
        return Err("no proof was found".into());
    };
    assert_eq!(rt; certificate.visits, 0);
    Ok(())
}

#[test]
fn one_valuation_does_not_tell(rt: HostRuntime) -> Result<(), Fail> {
    let Finding::Depth(paths) = found(rt.alloc(), Edge::Rise, 1)? else {
        return Err("a depth of 1 was enough".into());
    };
    assert_eq!(rt; paths.len(), 2);
    Ok(())
}

#[test]
fn inductive_clauses_tell(rt: HostRuntime) -> Result<(), Fail> {
    let Finding::Depth(paths) = found_of_latch(rt.alloc(), 2, false)? else {
        return Err("a window of 2 was enough".into());
    };
    assert_eq!(rt; paths.len(), 2);
    let Finding::ProvedReach(certificate) = found_of_latch(rt.alloc(), 2, true)? else {
        return Err("no clauses were found".into());
    };
    assert_eq!(rt; certificate.visits, 0);
    Ok(())
}
