ghost use Rattle.std.specs.Prelude.{◌≡◌, ◌++◌, ◌<◌, IfOk, OnOk, codes};
ghost use Rattle.psl_tree.specs.Atoms.{AtomsOfBoolean, AtomsOfSequence, AtomsOfFormula};
ghost use Rattle.psl_text.specs.CanonicalText.{edge_word, index_part, atom_text, boolean_text, sequence_text, formula_text};
ghost use Rattle.psl_tree.specs.Names.{AtomInRange, indices};
ghost use Rattle.psl_tree.specs.Trees.{boolean_of, sequence_of, formula_of};

use crate::naming::{index_of, name_of};
use psl_base::{NoMemory, Text, add_bytes, add_number};
use psl_tree::{Atom, Bool, Edge, Fl, Name, Names, Sere};
use std::alloc::Global;

/// The canonical text of a formula, by the names of its signals. It is for reading. Of several names
/// of one signal the first is taken, and a bit of a signal that is wider than one bit has its index.
pub fn print_fl(alloc: Global, f: &Fl, names: &Names) -> Result<Text, NoMemory>
    requires { AtomsOfFormula (AtomInRange names.now) (formula_of f.now) }
    ensures { IfOk result (λ text. text ≡ formula_text names.now (formula_of f.now)) }
{
    let mut text = Vec::new(alloc);
    add_formula(&mut text, names.as_slice(), f)?;
    Ok(Text::from_vec(text))
}

#[cycle(formula)]
fn add_formula(text: &mut Vec<u8>, names: &[Name], f: &Fl) -> Result<(), NoMemory>
    requires { AtomsOfFormula (AtomInRange names.now) (formula_of f.now) }
    ensures { OnOk result (text.new.items ≡ text.old.items ++ formula_text names.now (formula_of f.now)) }
{
    match f {
        Fl::Now(test) => add_boolean(text, names, test),
        Fl::NowStrong(test) => add_boolean_in(text, names, b"(", test, b")!"),
        Fl::Weak(sequence) => add_sequence_in(text, names, b"{", sequence, b"}"),
        Fl::Strong(sequence) => add_sequence_in(text, names, b"{", sequence, b"}!"),
        Fl::Not(part) => add_formula_in(text, names, b"!(", part, b")"),
        Fl::And(left, right) => {
            add_formula_in(text, names, b"(", left, b") && (")?;
            add_formula(text, names, right)?;
            add_bytes(text, b")")
        }
        Fl::Next(part) => add_formula_in(text, names, b"X! (", part, b")"),
        Fl::Until(left, right) => {
            add_formula_in(text, names, b"(", left, b") U (")?;
            add_formula(text, names, right)?;
            add_bytes(text, b")")
        }
        Fl::Suffix(sequence, part) => {
            add_sequence_in(text, names, b"{", sequence, b"} |-> (")?;
            add_formula(text, names, part)?;
            add_bytes(text, b")")
        }
        Fl::Abort(part, test) => {
            add_formula_in(text, names, b"(", part, b") async_abort (")?;
            add_boolean(text, names, test)?;
            add_bytes(text, b")")
        }
        Fl::SyncAbort(part, test) => {
            add_formula_in(text, names, b"(", part, b") sync_abort (")?;
            add_boolean(text, names, test)?;
            add_bytes(text, b")")
        }
        Fl::Clocked(part, clock) => {
            add_formula_in(text, names, b"(", part, b") @ (")?;
            add_boolean(text, names, clock)?;
            add_bytes(text, b")")
        }
    }
}

// A formula between two pieces.
#[cycle(formula)]
fn add_formula_in(
    text: &mut Vec<u8>,
    names: &[Name],
    before: &[u8],
    f: &Fl,
    after: &[u8],
) -> Result<(), NoMemory>
    requires { AtomsOfFormula (AtomInRange names.now) (formula_of f.now) }
    ensures { OnOk result (text.new.items ≡ text.old.items ++ (before.now ++ formula_text names.now (formula_of f.now) ++ after.now)) }
{
    add_bytes(text, before)?;
    add_formula(text, names, f)?;
    add_bytes(text, after)
}

#[cycle(sequence)]
fn add_sequence(text: &mut Vec<u8>, names: &[Name], sequence: &Sere) -> Result<(), NoMemory>
    requires { AtomsOfSequence (AtomInRange names.now) (sequence_of sequence.now) }
    ensures { OnOk result (text.new.items ≡ text.old.items ++ sequence_text names.now (sequence_of sequence.now)) }
{
    match sequence {
        Sere::Empty => add_bytes(text, b"[*0]"),
        Sere::One(test) => add_boolean(text, names, test),
        Sere::Concat(left, right) => {
            add_sequence_in(text, names, b"{", left, b"};{")?;
            add_sequence(text, names, right)?;
            add_bytes(text, b"}")
        }
        Sere::Fuse(left, right) => {
            add_sequence_in(text, names, b"{", left, b"}:{")?;
            add_sequence(text, names, right)?;
            add_bytes(text, b"}")
        }
        Sere::Either(left, right) => {
            add_sequence_in(text, names, b"{", left, b"}|{")?;
            add_sequence(text, names, right)?;
            add_bytes(text, b"}")
        }
        Sere::Both(left, right) => {
            add_sequence_in(text, names, b"{", left, b"}&&{")?;
            add_sequence(text, names, right)?;
            add_bytes(text, b"}")
        }
        Sere::Star(part) => add_sequence_in(text, names, b"{", part, b"}[*]"),
        Sere::Clocked(part, clock) => {
            add_sequence_in(text, names, b"{", part, b"}@(")?;
            add_boolean(text, names, clock)?;
            add_bytes(text, b")")
        }
    }
}

// A sequence between two pieces.
#[cycle(sequence)]
fn add_sequence_in(
    text: &mut Vec<u8>,
    names: &[Name],
    before: &[u8],
    sequence: &Sere,
    after: &[u8],
) -> Result<(), NoMemory>
    requires { AtomsOfSequence (AtomInRange names.now) (sequence_of sequence.now) }
    ensures { OnOk result (text.new.items ≡ text.old.items ++ (before.now ++ sequence_text names.now (sequence_of sequence.now) ++ after.now)) }
{
    add_bytes(text, before)?;
    add_sequence(text, names, sequence)?;
    add_bytes(text, after)
}

#[cycle(boolean)]
fn add_boolean(text: &mut Vec<u8>, names: &[Name], test: &Bool) -> Result<(), NoMemory>
    requires { AtomsOfBoolean (AtomInRange names.now) (boolean_of test.now) }
    ensures { OnOk result (text.new.items ≡ text.old.items ++ boolean_text names.now (boolean_of test.now)) }
{
    match test {
        Bool::Const(true) => add_bytes(text, b"true"),
        Bool::Const(false) => add_bytes(text, b"false"),
        Bool::Test(atom) => add_atom(text, names, atom),
        Bool::Not(part) => add_boolean_in(text, names, b"!(", part, b")"),
        Bool::And(left, right) => {
            add_boolean_in(text, names, b"(", left, b") && (")?;
            add_boolean(text, names, right)?;
            add_bytes(text, b")")
        }
        Bool::Or(left, right) => {
            add_boolean_in(text, names, b"(", left, b") || (")?;
            add_boolean(text, names, right)?;
            add_bytes(text, b")")
        }
    }
}

// A Boolean between two pieces.
#[cycle(boolean)]
fn add_boolean_in(
    text: &mut Vec<u8>,
    names: &[Name],
    before: &[u8],
    test: &Bool,
    after: &[u8],
) -> Result<(), NoMemory>
    requires { AtomsOfBoolean (AtomInRange names.now) (boolean_of test.now) }
    ensures { OnOk result (text.new.items ≡ text.old.items ++ (before.now ++ boolean_text names.now (boolean_of test.now) ++ after.now)) }
{
    add_bytes(text, before)?;
    add_boolean(text, names, test)?;
    add_bytes(text, after)
}

fn add_atom(text: &mut Vec<u8>, names: &[Name], atom: &Atom) -> Result<(), NoMemory>
    requires { AtomInRange names.now atom.now }
    ensures { OnOk result (text.new.items ≡ text.old.items ++ atom_text names.now atom.now) }
{
    let name = name_of(names, atom);
    add_bytes(text, edge_word(atom.edge))?;
    add_bytes(text, name.text.as_slice())?;
    add_index(text, name, atom.bit)
}

// The index of a bit, where the name is wider than one bit.
fn add_index(text: &mut Vec<u8>, name: &Name, bit: u32) -> Result<(), NoMemory>
    requires { bit < indices name.now }
    ensures { OnOk result (text.new.items ≡ text.old.items ++ index_part name.now bit) }
{
    if name.left == name.right {
        return Ok(());
    }
    add_bytes(text, b"[")?;
    add_number(text, u64::from(index_of(name, bit)))?;
    add_bytes(text, b"]")
}

// What stands before a bit.
fn edge_word(edge: Edge) -> &'static [u8]
    ensures { result.now ≡ edge_word edge }
{
    match edge {
        Edge::Value => b"",
        Edge::Rise => b"posedge ",
        Edge::Fall => b"negedge ",
    }
}
