ghost use Rattle.std.specs.Prelude.{◌≡◌, ◌<◌, ◌^◌, ◌++◌, length, map, IfOk, OnOk};
ghost use Rattle.netlist.specs.Valuations.{bit};
ghost use Rattle.trace.specs.Trace.{count_of};
ghost use Rattle.trace.specs.Vectors.{name_of, range_text, reference_text, vector_declaration, vector_declarations, vector_line, vector_lines, vector_names, vector_samples, vectors_text};
ghost use Rattle.vcd_writer.specs.Lines.{digit};

use crate::codes::add_code;
use crate::printed::add_printed;
use crate::valuations::{count_of, valuation_in};
use netlist::Run;
use psl_base::{Bytes, Items, NoMemory, Numbers, Text, add_bytes, add_number};
use psl_tree::{Name, Names};
use std::alloc::Global;
use vcd_writer::add_time;

/// What a trace has as one signal: one signal of a netlist, or several, as a vector.
#[derive(Debug, Drop)]
pub struct Vector {
    /// The name of one signal; of several the text before the range of their indices.
    pub text: Text,
    /// The highest and the lowest index, both 0 of one signal.
    pub high: u32,
    pub low: u32,
    /// The numbers of the signals in the netlist, that of the highest index first.
    pub signals: Numbers,
}

/// All that a trace has, in the order in which it declares it.
pub type Vectors = Items<Vector>;

/// The text of a recording of a run, or of any stem and loop of valuations, as `write_trace` gives it, with vectors:
/// vector `i`, counted from 0, has the code `i`. Several signals are declared with their range, as `count [3:0]`,
/// and have their values in one line, as `b1010 !`, that of the highest index first.
///
/// # Errors
/// `NoMemory` where the allocator refuses memory.
pub fn write_vectors(
    alloc: Global,
    vectors: &[Vector],
    run: &Run,
    loops: u32,
) -> Result<Bytes, NoMemory>
    requires { 0 < length run.now.loop_part }
    ensures { IfOk result (λ text. text ≡ vectors_text vectors.now run.now loops) }
{
    let mut text = Vec::new(alloc);
    add_declarations(&mut text, vectors)?;
    add_bytes(&mut text, b"$enddefinitions $end\n")?;
    add_samples(&mut text, vectors, run, loops)?;
    Ok(Bytes::from_vec(text))
}

/// The names that a trace of vectors declares.
///
/// # Errors
/// `NoMemory` where the allocator refuses memory.
pub fn vector_names(alloc: Global, vectors: &[Vector]) -> Result<Names, NoMemory>
    requires { length vectors.now < 2 ^ 32 }
    ensures { IfOk result (λ names. names ≡ vector_names vectors.now) }
{
    let mut names = Names::new(alloc);
    for number in 0..vectors.len() {
        names.push(vector_name(alloc, &vectors[number], number as u32)?)?;
    }
    Ok(names)
}

/// The name of a vector, by its number.
fn vector_name(alloc: Global, vector: &Vector, number: u32) -> Result<Name, NoMemory>
    ensures { IfOk result (λ name. name ≡ name_of vector.now number) }
{
    Ok(Name {
        text: vector_text(alloc, vector)?,
        signal: number,
        left: vector.high,
        right: vector.low,
    })
}

/// The text under which a vector is found.
fn vector_text(alloc: Global, vector: &Vector) -> Result<Text, NoMemory>
    ensures { IfOk result (λ text. text ≡ (name_of vector.now 0).text) }
{
    if vector.high != vector.low {
        return vector.text.copy(alloc);
    }
    let mut text = Vec::new(alloc);
    add_printed(&mut text, vector.text.as_slice())?;
    Ok(Text::from_vec(text))
}

/// Adds the declarations of all vectors.
fn add_declarations(text: &mut Vec<u8>, vectors: &[Vector]) -> Result<(), NoMemory>
    ensures { OnOk result (text.new.items ≡ text.old.items ++ vector_declarations vectors.now (length vectors.now)) }
{
    for number in 0..vectors.len() {
        add_declaration(text, vectors, number)?;
    }
    Ok(())
}

/// Adds the declaration of a vector.
fn add_declaration(text: &mut Vec<u8>, vectors: &[Vector], number: usize) -> Result<(), NoMemory>
    requires { number < length vectors.now }
    ensures { OnOk result (text.new.items ≡ text.old.items ++ vector_declaration vectors.now number) }
{
    let vector = &vectors[number];
    add_bytes(text, b"$var wire ")?;
    add_number(text, vector.signals.len() as u64)?;
    add_bytes(text, b" ")?;
    add_code(text, number as u64)?;
    add_bytes(text, b" ")?;
    add_reference(text, vector)?;
    add_bytes(text, b" $end\n")?;
    Ok(())
}

/// Adds how a vector is named.
fn add_reference(text: &mut Vec<u8>, vector: &Vector) -> Result<(), NoMemory>
    ensures { OnOk result (text.new.items ≡ text.old.items ++ reference_text vector.now) }
{
    if vector.high == vector.low {
        return add_printed(text, vector.text.as_slice());
    }
    add_bytes(text, vector.text.as_slice())?;
    add_bytes(text, b" ")?;
    add_range(text, vector.high, vector.low)
}

/// Adds a range of indices.
fn add_range(text: &mut Vec<u8>, high: u32, low: u32) -> Result<(), NoMemory>
    ensures { OnOk result (text.new.items ≡ text.old.items ++ range_text high low) }
{
    add_bytes(text, b"[")?;
    add_number(text, high as u64)?;
    add_bytes(text, b":")?;
    add_number(text, low as u64)?;
    add_bytes(text, b"]")
}

/// Adds the samples of a run.
fn add_samples(
    text: &mut Vec<u8>,
    vectors: &[Vector],
    run: &Run,
    loops: u32,
) -> Result<(), NoMemory>
    requires { 0 < length run.now.loop_part }
    ensures { OnOk result (text.new.items ≡ text.old.items ++ vector_samples vectors.now run.now (count_of run.now loops)) }
{
    let Some(count) = count_of(run, loops) else {
        return Err(NoMemory);
    };
    for sample in 0..count {
        add_time(text, sample as u64)?;
        add_values(text, vectors, valuation_in(run, sample))?;
    }
    Ok(())
}

/// Adds the values of all vectors, each with its code.
fn add_values(text: &mut Vec<u8>, vectors: &[Vector], values: &[bool]) -> Result<(), NoMemory>
    ensures { OnOk result (text.new.items ≡ text.old.items ++ vector_lines vectors.now values.now (length vectors.now)) }
{
    for number in 0..vectors.len() {
        add_value(text, vectors, values, number)?;
    }
    Ok(())
}

/// Adds the values of a vector.
fn add_value(
    text: &mut Vec<u8>,
    vectors: &[Vector],
    values: &[bool],
    number: usize,
) -> Result<(), NoMemory>
    requires { number < length vectors.now }
    ensures { OnOk result (text.new.items ≡ text.old.items ++ vector_line vectors.now values.now number) }
{
    let vector = &vectors[number];
    let wide = vector.high != vector.low;
    if wide {
        text.push(b'b')?;
    }
    add_letters(text, vector.signals.as_slice(), values)?;
    if wide {
        text.push(b' ')?;
    }
    add_code(text, number as u64)?;
    text.push(b'\n')?;
    Ok(())
}

/// Adds the values of signals as digits.
fn add_letters(text: &mut Vec<u8>, signals: &[u32], values: &[bool]) -> Result<(), NoMemory>
    ensures { OnOk result (text.new.items ≡ text.old.items ++ map (λ signal. digit (bit values.now signal)) signals.now) }
{
    for signal in signals {
        text.push(digit_of(values, *signal))?;
    }
    Ok(())
}

/// The value of a signal as a digit.
fn digit_of(values: &[bool], signal: u32) -> u8
    ensures { result ≡ digit (bit values.now signal) }
{
    match values.get(signal as usize) {
        Some(true) => b'1',
        _ => b'0',
    }
}
