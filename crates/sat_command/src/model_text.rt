// A model as text.
ghost use Rattle.std.specs.Prelude.{◌≡◌, ◌+◌, ◌≤◌, ◌++◌, ◌∷◌, List, Bool, IfOk, OnOk};
ghost use Rattle.sat_command.specs.Models.{literal_text, values_text, model_text};
ghost use Rattle.sat_command.specs.Models as spec;

use psl_base::{NoMemory, add_bytes, add_number};

/// How many literals stand in a line.
const LINE: u32 = 6;

/// Adds the lines of a model: `v` and the literals that are true, from the variable 1 on, six in a line, and a `0` at the
/// end.
pub fn add_model(text: &mut Vec<u8>, values: &[bool]) -> Result<(), NoMemory>
    ensures { OnOk result (text.new.items ≡ text.old.items ++ model_text values.now) }
{
    add_bytes(text, b"v")?;
    let mut column = 0;
    for place in 0..values.len() {
        column = add_value(text, column, place as u64 + 1, values[place])?;
    }
    add_bytes(text, b" 0\n")
}

/// Adds the literal of a variable behind so many in its line, and says behind how many the next stands.
fn add_value(text: &mut Vec<u8>, column: u32, variable: u64, value: bool) -> Result<u32, NoMemory>
    requires column { column ≤ LINE }
    ensures few { IfOk result (λ next. next ≤ LINE) }
    ensures added { IfOk result (λ next. (rest : List Bool) → text.old.items ++ values_text variable column (value ∷ rest)
        ≡ text.new.items ++ values_text (variable + 1) next rest) }
{
    if column == LINE {
        add_bytes(text, b"\nv")?;
        add_literal(text, variable, value)?;
        return Ok(1);
    }
    add_literal(text, variable, value)?;
    Ok(column + 1)
}

/// Adds a blank and the literal of a variable that is true, by the variable's value.
fn add_literal(text: &mut Vec<u8>, variable: u64, value: bool) -> Result<(), NoMemory>
    ensures { OnOk result (text.new.items ≡ text.old.items ++ literal_text variable value) }
{
    add_bytes(text, sign_of(value))?;
    add_number(text, variable)
}

/// What stands before a variable of a value.
fn sign_of(value: bool) -> &'static [u8]
    ensures { result.now ≡ spec.sign_text value }
{
    if value {
        b" ".as_slice()
    } else {
        b" -".as_slice()
    }
}
