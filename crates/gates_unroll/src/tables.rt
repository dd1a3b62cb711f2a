// The tables of a frame.
ghost use Rattle.std.specs.Prelude.{◌≡◌, ◌≤◌, ◌<◌, ℕ, neg_ℤ, cond, fold, length, map, All, IfOk, IsTrue};
ghost use Rattle.clauses.specs.Literals.{is_literal};
ghost use Rattle.netlist.specs.Sound.{table_at};
ghost use Rattle.netlist.specs.Valuations.{bit};
ghost use Rattle.gates_builder.specs.Adding.{Adds, AreOf, IsOf, Making};
ghost use Rattle.gates_frames.specs.Frames as frames;
ghost use Rattle.gates_frames.specs.Frames.{literal_at, literal_or, table_of, with_table};
ghost use Rattle.gates_nodes.specs.Tables.{some_row, tabled};
ghost use Rattle.gates_unroll.specs.Adding.{frame_of, Writes};

use clauses::CnfFault;
use gates_builder::{Builder, negated};
use gates_theory::Literals;
use netlist::Table;
use psl_base::NoMemory;
use std::alloc::Global;

// The literal of an input of a table, by its place; that which is true behind the last one.
fn input_at(builder: &Builder, inputs: &[u32], literals: &[i32], place: usize) -> i32
    requires signals { All (λ signal. signal < length literals.now) inputs.now }
    requires literals { AreOf builder.now literals.now }
    ensures is { result
        ≡ literal_or builder.now.given (map (literal_at builder.now.given literals.now) inputs.now) place }
    ensures of { IsOf builder.now result }
{
    if place < inputs.len() {
        literals[inputs[place] as usize]
    } else {
        builder.yes()
    }
}

// The literal of a table of at most four inputs.
fn small_table(
    alloc: Global,
    builder: &mut Builder,
    number: u32,
    inputs: &[u32],
    literals: &[i32],
) -> Result<i32, CnfFault>
    requires listed { number < length builder.old.covers }
    requires signals { All (λ signal. signal < length literals.now) inputs.now }
    requires literals { AreOf builder.old literals.now }
    ensures { Adds builder.old builder.new (tabled builder.old.covers builder.old.given builder.old.nodes number
        (literal_or builder.old.given (map (literal_at builder.old.given literals.now) inputs.now) 0)
        (literal_or builder.old.given (map (literal_at builder.old.given literals.now) inputs.now) 1)
        (literal_or builder.old.given (map (literal_at builder.old.given literals.now) inputs.now) 2)
        (literal_or builder.old.given (map (literal_at builder.old.given literals.now) inputs.now) 3)) result }
{
    let first = input_at(builder, inputs, literals, 0);
    let second = input_at(builder, inputs, literals, 1);
    let third = input_at(builder, inputs, literals, 2);
    let fourth = input_at(builder, inputs, literals, 3);
    builder.table(alloc, number, first, second, third, fourth)
}

// The literals of signals.
fn literals_of(alloc: Global, signals: &[u32], literals: &[i32]) -> Result<Literals, NoMemory>
    requires signals { All (λ signal. signal < length literals.now) signals.now }
    ensures are { (making : Making) → AreOf making literals.now → IfOk result (AreOf making) }
    ensures is { (given : ℕ) → IfOk result (λ read. read ≡ map (literal_at given literals.now) signals.now) }
{
    let mut read = Literals::new(alloc);
    for signal in signals {
        read.push(literals[*signal as usize])?;
    }
    Ok(read)
}

// What a table says where some row fits, of the literal that says whether one does.
fn signed(value: bool, fits: i32) -> i32
    requires { IsTrue (is_literal fits) }
    ensures is { result ≡ cond value fits (neg_ℤ fits) }
    ensures literal { IsTrue (is_literal result) }
{
    if value { fits } else { negated(fits) }
}

// The literal of a table of any number of inputs, by its rows.
fn large_table(
    alloc: Global,
    builder: &mut Builder,
    table: &Table,
    literals: &[i32],
) -> Result<i32, CnfFault>
    requires signals { All (λ signal. signal < length literals.now) table.now.inputs }
    requires literals { AreOf builder.old literals.now }
    ensures { Adds builder.old builder.new
        (frames.signed table.now.value (some_row builder.old.given builder.old.nodes table.now.rows
        (map (literal_at builder.old.given literals.now) table.now.inputs))) result }
{
    let read = literals_of(alloc, table.inputs.as_slice(), literals)?;
    let fits = builder.rows(&table.rows, read.as_slice())?;
    Ok(signed(table.value, fits))
}

// The literal of a table.
fn table_of(
    alloc: Global,
    builder: &mut Builder,
    number: u32,
    table: &Table,
    literals: &[i32],
) -> Result<i32, CnfFault>
    requires listed { number < length builder.old.covers }
    requires signals { All (λ signal. signal < length literals.now) table.now.inputs }
    requires literals { AreOf builder.old literals.now }
    ensures { Adds builder.old builder.new
        (table_of builder.old.covers builder.old.given builder.old.nodes number table.now
        (map (literal_at builder.old.given literals.now) table.now.inputs)) result }
{
    if table.inputs.len() <= 4 {
        small_table(alloc, builder, number, table.inputs.as_slice(), literals)
    } else {
        large_table(alloc, builder, table, literals)
    }
}

// A table has its literal, where its output is in the cone.
fn add_table(
    alloc: Global,
    builder: &mut Builder,
    cone: &[bool],
    tables: &[Table],
    number: u32,
    literals: &mut [i32],
) -> Result<(), CnfFault>
    requires table { number < length tables.now }
    requires listed { number < length builder.old.covers }
    requires cone { All (λ table. table.output < length cone.now) tables.now }
    requires signals { All (λ table. table.output < length literals.old) tables.now }
    requires inputs { All (λ table. All (λ signal. signal < length literals.old) table.inputs) tables.now }
    requires literals { AreOf builder.old literals.old }
    ensures { Writes builder.old builder.new literals.new
        (with_table builder.old.covers builder.old.given tables.now (bit cone.now)
        (frame_of builder.old literals.old) number) result }
{
    let table = &tables[number as usize];
    if cone[table.output as usize] {
        literals[table.output as usize] = table_of(alloc, builder, number, table, literals)?;
    }
    Ok(())
}

/// Tables of a frame, in an order in which they can be computed, have their literals, as far as their outputs are in the
/// cone.
pub(crate) fn add_tables(
    alloc: Global,
    builder: &mut Builder,
    cone: &[bool],
    tables: &[Table],
    order: &[u32],
    literals: &mut [i32],
) -> Result<(), CnfFault>
    requires order { All (λ number. number < length tables.now) order.now }
    requires listed { length tables.now ≤ length builder.old.covers }
    requires cone { All (λ table. table.output < length cone.now) tables.now }
    requires signals { All (λ table. table.output < length literals.old) tables.now }
    requires inputs { All (λ table. All (λ signal. signal < length literals.old) table.inputs) tables.now }
    requires literals { AreOf builder.old literals.old }
    ensures { Writes builder.old builder.new literals.new
        (fold (with_table builder.old.covers builder.old.given tables.now (bit cone.now)) (frame_of builder.old literals.old)
        order.now) result }
{
    for i in 0..order.len() {
        add_table(alloc, builder, cone, tables, order[i], literals)?;
    }
    Ok(())
}
