use crate::fault::Fault;
use psl_base::{Bytes, File, Files, MemShelf, Numbers};
use std::alloc::Global;
use vcd_reader::{Recording, Unknown, read_vcd};

/// Signals of one bit, each with its code, and two vectors, the second of which counts its indices
/// from the left.
const HEAD: &str = "$var wire 1 A a $end\n$var wire 1 B b $end\n$var wire 1 C c $end\n\
    $var wire 1 D d $end\n$var wire 1 K clk $end\n\
    $var wire 4 V v [3:0] $end\n$var wire 2 W w [0:1] $end\n$enddefinitions $end\n";

const BITS: [(&str, &str); 5] = [
    ("a", "A\n"),
    ("b", "B\n"),
    ("c", "C\n"),
    ("d", "D\n"),
    ("clk", "K\n"),
];

/// The bits of the vectors from the left.
const V: [&str; 4] = ["v3", "v2", "v1", "v0"];

const W: [&str; 2] = ["w0", "w1"];

/// A recording: of each sample the names of those signals and bits that are 1, or `-`. `none` is a recording without
/// samples.
pub fn recording(alloc: Global, samples: &str) -> Result<Recording, Fault> {
    let text = text_of(alloc, samples)?;
    let mut shelf = shelf_of(alloc, text.as_bytes())?;
    Ok(read_vcd(alloc, &mut shelf, "r.vcd", Unknown::Zero)?)
}

/// The text of the recording.
fn text_of(alloc: Global, samples: &str) -> Result<String, Fault> {
    let mut text = String::from_str(alloc, HEAD)?;
    if samples != "none" {
        for (number, sample) in samples.split(';').enumerate() {
            text.push_str(format!(in alloc; "#{number}\n")?.as_str())?;
            add_sample(&mut text, sample)?;
        }
    }
    Ok(text)
}

/// A shelf with a recording of this text.
fn shelf_of(alloc: Global, text: &[u8]) -> Result<MemShelf, Fault> {
    let mut files = Files::new(alloc);
    files.push(File {
        name: Bytes::from_slice(alloc, b"r.vcd")?,
        content: Bytes::from_slice(alloc, text)?,
    })?;
    Ok(MemShelf::new(alloc, &files, 0, 0, &Numbers::new(alloc))?)
}

/// The value of each signal at a sample.
fn add_sample(text: &mut String, sample: &str) -> Result<(), Fault> {
    for (name, code) in BITS {
        text.push(bit(sample, name))?;
        text.push_str(code)?;
    }
    text.push('b')?;
    for name in V {
        text.push(bit(sample, name))?;
    }
    text.push_str(" V\nb")?;
    for name in W {
        text.push(bit(sample, name))?;
    }
    text.push_str(" W\n")?;
    Ok(())
}

fn bit(sample: &str, name: &str) -> char {
    if sample.split_whitespace().any(|word| word == name) {
        '1'
    } else {
        '0'
    }
}
