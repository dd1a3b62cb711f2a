// What no clause says: that the calls succeed with ample memory. The formula of a table of two inputs is worked by hand.
ghost use Rattle.std.specs.Prelude.{◌≡◌, length, IfOk};

use clauses::{Clauses, Cnf, CnfFault};
use gates_builder::Builder;
use gates_covers::covers_of;
use gates_formula::formula;
use netlist::{Mark, Rows, Signals, Table, Tables};
use psl_base::NoMemory;
use std::alloc::Global;
use std::test::Fail;

// A table that is 1 where both of its inputs are.
fn both(alloc: Global) -> Result<Tables, NoMemory>
    ensures { IfOk result (λ tables. length tables ≡ 1) }
{
    let mut rows = Rows::new(alloc);
    rows.push(&[Mark::One, Mark::One])?;
    let inputs = Signals::from_slice(alloc, &[0, 1])?;
    let mut tables = Tables::new(alloc);
    tables.push(Table {
        inputs,
        output: 2,
        rows,
        value: true,
    })?;
    Ok(tables)
}

// The formula that the table of two free nodes is 1; a third one is not asked for.
fn asked(alloc: Global) -> Result<Cnf, CnfFault> {
    let tables = both(alloc)?;
    let covers = covers_of(alloc, tables.as_slice())?;
    let mut builder = Builder::new(alloc, 0, covers);
    let first = builder.free(0, 0)?;
    let second = builder.free(0, 1)?;
    let yes = builder.yes();
    let output = builder.table(alloc, 0, first, second, yes, yes)?;
    let other = builder.free(0, 2)?;
    let _unasked = builder.and(first, other)?;
    let mut clauses = Clauses::new(alloc);
    clauses.push(&[output])?;
    formula(alloc, &builder, &clauses)
}

// Whether there is this clause at a place.
fn is(clauses: &Clauses, place: usize, literals: &[i32]) -> bool {
    place < clauses.len() && clauses.at(place) == literals
}

#[test]
fn a_table_is_asked_for(rt: HostRuntime) -> Result<(), Fail> {
    let formula = asked(rt.alloc())?;
    assert_eq!(rt; (formula.variables, formula.clauses.len()), (6, 5));
    assert!(rt; is(&formula.clauses, 0, &[1]));
    assert!(rt; is(&formula.clauses, 1, &[4, -2, -3]));
    assert!(rt; is(&formula.clauses, 2, &[-4, 3]));
    assert!(rt; is(&formula.clauses, 3, &[-4, 2]));
    assert!(rt; is(&formula.clauses, 4, &[4]));
    Ok(())
}
