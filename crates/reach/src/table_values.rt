// The value of a table's output, where some of its inputs may be unknown.
use crate::ternary::{Ternaries, Ternary, at};
use netlist::{Mark, Table};

// Up to so many unknown inputs, each choice of their values is looked at.
const MOST_CHOSEN: u32 = 4;

/// The value of a table's output, as far as the values of its inputs tell it.
pub(crate) fn value_of_table(table: &Table, values: &Ternaries) -> Ternary {
    let met = match some_row_fits(table, values) {
        Ternary::Unknown => whatever_is_chosen(table, values),
        Ternary::True => Ternary::True,
        Ternary::False => Ternary::False,
    };
    if table.value { met } else { met.not() }
}

/// The value of the input at a place of a row.
fn input_at(inputs: &[u32], place: usize, values: &Ternaries) -> Ternary {
    match inputs.get(place) {
        Some(signal) => at(values, *signal as usize),
        None => Ternary::Unknown,
    }
}

/// Whether a value is what a mark asks.
fn fits_mark(mark: Mark, value: Ternary) -> Ternary {
    match mark {
        Mark::Zero => value.not(),
        Mark::One => value,
        Mark::Any => Ternary::True,
    }
}

/// Whether a row fits.
fn row_fits(row: &[Mark], inputs: &[u32], values: &Ternaries) -> Ternary {
    let mut fits = Ternary::True;
    for place in 0..row.len() {
        fits = fits.and(fits_mark(row[place], input_at(inputs, place, values)));
        if fits.is(false) {
            return Ternary::False;
        }
    }
    fits
}

/// Whether some row of a table fits, as its rows tell it one by one.
fn some_row_fits(table: &Table, values: &Ternaries) -> Ternary {
    let inputs = table.inputs.as_slice();
    let mut some = Ternary::False;
    for place in 0..table.rows.len() {
        some = some.or(row_fits(table.rows.at(place), inputs, values));
        if some.is(true) {
            return Ternary::True;
        }
    }
    some
}

/// How many inputs are unknown.
fn count_unknown(inputs: &[u32], values: &Ternaries) -> u32 {
    let mut count: u32 = 0;
    for place in 0..inputs.len() {
        if input_at(inputs, place, values) == Ternary::Unknown {
            count = count.saturating_add(1);
        }
    }
    count
}

/// Whether a row fits a choice: the unknown inputs are the binary digits of a number, the lowest one first.
fn row_fits_choice(row: &[Mark], inputs: &[u32], values: &Ternaries, choice: u32) -> bool {
    let mut rest = choice;
    for place in 0..row.len() {
        let mut value = input_at(inputs, place, values);
        if value == Ternary::Unknown {
            value = Ternary::of(rest % 2 == 1);
            rest = rest / 2;
        }
        if fits_mark(row[place], value).is(false) {
            return false;
        }
    }
    true
}

/// Whether some row of a table fits a choice.
fn fits_choice(table: &Table, values: &Ternaries, choice: u32) -> bool {
    let inputs = table.inputs.as_slice();
    for place in 0..table.rows.len() {
        if row_fits_choice(table.rows.at(place), inputs, values, choice) {
            return true;
        }
    }
    false
}

/// Whether some row of a table fits, where all choices of the unknown inputs agree and there are few of these.
fn whatever_is_chosen(table: &Table, values: &Ternaries) -> Ternary {
    let unknown = count_unknown(table.inputs.as_slice(), values);
    if unknown > MOST_CHOSEN {
        return Ternary::Unknown;
    }
    let first = fits_choice(table, values, 0);
    for choice in 1..1u32 << unknown {
        if fits_choice(table, values, choice) != first {
            return Ternary::Unknown;
        }
    }
    Ternary::of(first)
}
