// What tables say of a valuation.
ghost use Rattle.std.specs.Prelude.{◌≡◌, ◌+◌, ◌<◌, ◌≤◌, ◌-◌, [], ◌∷◌, length, map, IsTrue, All, IfSome, IfNone};
ghost use Rattle.clauses.specs.declared.flat.TheConstants.{MOST_VARIABLES};
ghost use Rattle.clauses.specs.Literals.{is_literal};
ghost use Rattle.run_gates.specs.Building.{place_at, Builds};
ghost use Rattle.run_gates.specs.Marks.{marked, IsSoundTable};
ghost use Rattle.run_terms.specs.Tables.{all_of, fits_term, guarded, row_literals, rows_term, table_term};

use crate::Builder;
use crate::booleans::add_constant;
use crate::builder::negated;
use crate::joining::{add_also, add_or};
use clauses::CnfFault;
use netlist::{Mark, Rows, Table};

/// The literal of a signal, where so many variables are before those of the signals.
fn place(offset: u32, signal: u32) -> i32
    requires { offset + signal < MOST_VARIABLES }
    ensures is { result ≡ place_at offset signal }
    ensures literal { IsTrue (is_literal result) }
{
    (offset + signal + 1) as i32
}

/// The literal that a mark asks to be true, if it asks anything.
fn asked(mark: Mark, literal: i32) -> Option<i32>
    requires { IsTrue (is_literal literal) }
    ensures is { result ≡ marked mark literal }
    ensures literal { IfSome result (λ other. IsTrue (is_literal other)) }
{
    match mark {
        Mark::Zero => Some(negated(literal)),
        Mark::One => Some(literal),
        Mark::Any => None,
    }
}

/// A row fits.
fn add_row(
    gates: &mut Builder,
    offset: u32,
    inputs: &[u32],
    marks: &[Mark],
) -> Result<i32, CnfFault>
    requires each { length marks.now ≡ length inputs.now }
    requires below { All (λ signal. offset + signal < MOST_VARIABLES) inputs.now }
    ensures { Builds gates.old gates.new (all_of (row_literals marks.now (map (place_at offset) inputs.now))) result }
{
    let mut found = None;
    for i in 0..marks.len() {
        if let Some(literal) = asked(marks[i], place(offset, inputs[i])) {
            found = Some(add_also(gates, found, literal)?);
        }
    }
    match found {
        Some(literal) => Ok(literal),
        None => add_constant(gates, true),
    }
}

/// Some row fits.
fn add_rows(gates: &mut Builder, offset: u32, inputs: &[u32], rows: &Rows) -> Result<i32, CnfFault>
    requires each { All (λ row. length row ≡ length inputs.now) rows.now }
    requires below { All (λ signal. offset + signal < MOST_VARIABLES) inputs.now }
    ensures { Builds gates.old gates.new (rows_term rows.now (map (place_at offset) inputs.now)) result }
{
    let mut found = None;
    for i in 0..rows.len() {
        let fits = add_row(gates, offset, inputs, rows.at(i))?;
        found = Some(add_or(gates, found, fits)?);
    }
    match found {
        Some(literal) => Ok(literal),
        None => add_constant(gates, false),
    }
}

/// Some row fits; without inputs each row does.
fn add_fits(gates: &mut Builder, offset: u32, inputs: &[u32], rows: &Rows) -> Result<i32, CnfFault>
    requires each { All (λ row. length row ≡ length inputs.now) rows.now }
    requires below { All (λ signal. offset + signal < MOST_VARIABLES) inputs.now }
    ensures { Builds gates.old gates.new (fits_term rows.now (map (place_at offset) inputs.now)) result }
{
    if rows.len() == 0 {
        add_constant(gates, false)
    } else if inputs.is_empty() {
        add_constant(gates, true)
    } else {
        add_rows(gates, offset, inputs, rows)
    }
}

/// The output of a table has the value that its rows say. So many variables are before those of the signals.
pub fn add_table(gates: &mut Builder, offset: u32, table: &Table) -> Result<i32, CnfFault>
    requires sound { IsSoundTable (MOST_VARIABLES - offset) table.now }
    ensures { Builds gates.old gates.new (table_term (place_at offset) table.now) result }
{
    let fits = add_fits(gates, offset, table.inputs.as_slice(), &table.rows)?;
    let says = if table.value { fits } else { negated(fits) };
    gates.equal(place(offset, table.output), says)
}

/// The same where a literal is true.
pub fn add_guarded(
    gates: &mut Builder,
    guard: i32,
    offset: u32,
    table: &Table,
) -> Result<i32, CnfFault>
    requires guard { IsTrue (is_literal guard) }
    requires sound { IsSoundTable (MOST_VARIABLES - offset) table.now }
    ensures { Builds gates.old gates.new (guarded guard (table_term (place_at offset) table.now)) result }
{
    let agrees = add_table(gates, offset, table)?;
    gates.implied(guard, agrees)
}
