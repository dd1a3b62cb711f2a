ghost use Rattle.std.specs.Prelude.{◌≡◌, ℕ, ◌<◌, true, false, [], ◌∷◌, length, All, Any, IfOk};
ghost use Rattle.netlist.specs.Design.{free_of};
ghost use Rattle.netlist.specs.Sound.{NamesBit};

use netlist::{Init, Latch, Latches, Mark, Netlist, Rows, Run, Signals, Table, Tables, Valuations};
use psl_base::{Bits, NoMemory, Text};
use psl_tree::{Atom, Edge, Letter, Letters, Name, Names, Word};
use std::alloc::Global;
use std::test::Fail;

// A table with one row.
fn table(
    alloc: Global,
    inputs: &[u32],
    output: u32,
    row: &[Mark],
    value: bool,
) -> Result<Table, NoMemory>
    ensures { IfOk result (λ new. new ≡ record { inputs = inputs.now; output = output; rows = row.now ∷ []; value = value }) }
{
    let mut rows = Rows::new(alloc);
    rows.push(row)?;
    Ok(Table {
        inputs: Signals::from_slice(alloc, inputs)?,
        output,
        rows,
        value,
    })
}

// A name for each signal.
fn names(alloc: Global, texts: &[&str]) -> Result<Names, NoMemory>
    requires { length texts.now < 100 }
    ensures bits { IfOk result (All (NamesBit (length texts.now))) }
    ensures named { IfOk result (λ new. (signal : ℕ) → signal < length texts.now → Any (λ name. name.signal ≡ signal) new) }
{
    let mut names = Names::new(alloc);
    let mut signal = 0;
    for text in texts {
        names.push(Name {
            text: Text::from_slice(alloc, text.as_bytes())?,
            signal,
            left: 0,
            right: 0,
        })?;
        signal += 1;
    }
    Ok(names)
}

// n, which a row of 0 makes the contrary of q; one, a constant; none, a table without rows; and y, which is i without n.
fn tables(alloc: Global) -> Result<Tables, NoMemory>
    ensures { IfOk result (λ new. new ≡
        record { inputs = 1 ∷ []; output = 3; rows = (Mark.One ∷ []) ∷ []; value = false }
        ∷ record { inputs = []; output = 4; rows = [] ∷ []; value = true }
        ∷ record { inputs = []; output = 5; rows = []; value = true }
        ∷ record { inputs = 0 ∷ 3 ∷ 4 ∷ []; output = 6; rows = (Mark.One ∷ Mark.Zero ∷ Mark.Any ∷ []) ∷ []; value = true }
        ∷ []) }
{
    let mut tables = Tables::new(alloc);
    tables.push(table(alloc, &[1], 3, &[Mark::One], false)?)?;
    tables.push(table(alloc, &[], 4, &[], true)?)?;
    tables.push(Table {
        inputs: Signals::new(alloc),
        output: 5,
        rows: Rows::new(alloc),
        value: true,
    })?;
    let row = [Mark::One, Mark::Zero, Mark::Any];
    tables.push(table(alloc, &[0, 3, 4], 6, &row, true)?)?;
    Ok(tables)
}

// An input i; a latch q that is 0 at first and then what n was; a latch f that may be anything at first and stays so;
// and the tables.
fn example(alloc: Global) -> Result<Netlist, NoMemory>
    ensures signals { IfOk result (λ new. new.signals ≡ 7) }
    ensures free { IfOk result (λ new. length (free_of new) ≡ 3) }
{
    let inputs = Signals::from_slice(alloc, &[0])?;
    let q = Latch {
        input: 3,
        output: 1,
        init: Init::Zero,
    };
    let f = Latch {
        input: 2,
        output: 2,
        init: Init::Free,
    };
    let latches = Latches::from_slice(alloc, &[q, f])?;
    let tables = tables(alloc)?;
    let names = names(alloc, &["i", "q", "f", "n", "one", "none", "y"])?;
    let order = Signals::from_slice(alloc, &[0, 1, 2, 3])?;
    Ok(Netlist::of(7, inputs, latches, tables, names, order))
}

// A valuation of the example, written in digits.
fn bits(alloc: Global, digits: &[u8]) -> Result<Bits, NoMemory>
    ensures { IfOk result (λ new. length new ≡ length digits.now) }
{
    let mut bits = Bits::new(alloc);
    for digit in digits {
        bits.push(*digit == b'1')?;
    }
    Ok(bits)
}

// Valuations of the example, one behind another.
fn valuations(alloc: Global, digits: &str) -> Result<Valuations, NoMemory> {
    let mut valuations = Valuations::new(alloc);
    for row in digits.as_bytes().chunks_exact(7) {
        valuations.push(bits(alloc, row)?)?;
    }
    Ok(valuations)
}

// Whether these values of i, q and f give this valuation.
fn gives(alloc: Global, netlist: &Netlist, free: [bool; 3], wanted: &[u8]) -> Result<bool, NoMemory>
    requires signals { netlist.now.signals ≡ 7 }
    requires free { length (free_of netlist.now) ≡ 3 }
{
    let free = Bits::from_slice(alloc, &free)?;
    let mut into = bits(alloc, b"0000000")?;
    netlist.evaluate(&free, &mut into);
    Ok(into.as_slice() == bits(alloc, wanted)?.as_slice())
}

// Whether each valuation of the free signals gives the one that is wanted.
fn all_are_given(alloc: Global, netlist: &Netlist) -> Result<bool, NoMemory>
    requires signals { netlist.now.signals ≡ 7 }
    requires free { length (free_of netlist.now) ≡ 3 }
{
    Ok(
        gives(alloc, netlist, [false, false, false], b"0001100")?
            && gives(alloc, netlist, [true, false, true], b"1011100")?
            && gives(alloc, netlist, [false, true, false], b"0100100")?
            && gives(alloc, netlist, [true, true, true], b"1110101")?,
    )
}

fn valuations_are_filled(alloc: Global) -> Result<bool, NoMemory> {
    let netlist = example(alloc)?;
    all_are_given(alloc, &netlist)
}

#[test]
fn a_valuation_is_filled(rt: HostRuntime) -> Result<(), Fail> {
    assert!(rt; valuations_are_filled(rt.alloc())?);
    Ok(())
}

// How many of the cases, each a stem and a loop with a bar between, are runs.
fn runs_among(alloc: Global, netlist: &Netlist, cases: &str) -> Result<usize, NoMemory> {
    let mut count: usize = 0;
    for case in cases.split(' ') {
        if let Some((stem, loop_part)) = case.split_once('|') {
            let run = Run {
                stem: valuations(alloc, stem)?,
                loop_part: valuations(alloc, loop_part)?,
            };
            count = count.saturating_add(netlist.is_run(&run) as usize);
        }
    }
    Ok(count)
}

// q goes 0, 1, 0 and so on; the same with a stem, and i is free; and f may begin with either value.
const RUNS: &str = "|00011000100100 1001100|01001001001100 |00111000110100";

// The loop does not close; there is none; q is 1 at first; n is not what its row says; and f moves.
const NO_RUNS: &str =
    "|000110001001000001100 0001100| |01001000001100 |00011000101100 0001100|01101000011100";

// How many of the cases are runs of the example.
fn runs_of_example(alloc: Global, cases: &str) -> Result<usize, NoMemory> {
    let netlist = example(alloc)?;
    runs_among(alloc, &netlist, cases)
}

#[test]
fn eight_runs(rt: HostRuntime) -> Result<(), Fail> {
    assert_eq!(rt; runs_of_example(rt.alloc(), RUNS)?, 3);
    assert_eq!(rt; runs_of_example(rt.alloc(), NO_RUNS)?, 0);
    Ok(())
}

// The letters as the numbers of their atoms, with 99 behind each: three for each signal, for its value, its rise and its
// fall.
fn shown(alloc: Global, letters: &Letters) -> Result<Vec<u32>, NoMemory> {
    let mut all = Vec::new(alloc);
    for letter in letters.as_slice() {
        if let Letter::Holds(atoms) = letter {
            add_numbers(&mut all, atoms.as_slice())?;
        }
        all.push(99)?;
    }
    Ok(all)
}

fn add_numbers(all: &mut Vec<u32>, atoms: &[Atom]) -> Result<(), NoMemory> {
    for atom in atoms {
        let edge = match atom.edge {
            Edge::Value => 0,
            Edge::Rise => 1,
            Edge::Fall => 2,
        };
        all.push(atom.signal.saturating_mul(3).saturating_add(edge))?;
    }
    Ok(())
}

// The word of a run of the example, a stem of one valuation and a loop of two.
fn word(alloc: Global) -> Result<Word, NoMemory> {
    let mut stem = Valuations::new(alloc);
    stem.push(bits(alloc, b"0001100")?)?;
    let mut loop_part = Valuations::new(alloc);
    loop_part.push(bits(alloc, b"0100100")?)?;
    loop_part.push(bits(alloc, b"0001100")?)?;
    let run = Run { stem, loop_part };
    let netlist = example(alloc)?;
    netlist.word_of(alloc, &run)
}

#[test]
fn a_word_has_the_edges_of_its_loop(rt: HostRuntime) -> Result<(), Fail> {
    let word = word(rt.alloc())?;
    // q is signal 1, n is 3, and the constant 4 has no edge
    let stem = shown(rt.alloc(), &word.stem)?;
    assert_eq!(rt; stem.as_slice(), [9, 12, 99, 3, 4, 11, 12, 99].as_slice());
    let looped = shown(rt.alloc(), &word.looped)?;
    assert_eq!(rt;
        looped.as_slice(),
        [5, 9, 10, 12, 99, 3, 4, 11, 12, 99].as_slice()
    );
    Ok(())
}

// How many inputs, latches, tables and names the example has.
fn parts(alloc: Global) -> Result<(usize, usize, usize, usize), NoMemory> {
    let netlist = example(alloc)?;
    Ok((
        netlist.inputs().len(),
        netlist.latches().len(),
        netlist.tables().len(),
        netlist.names().len(),
    ))
}

// How many signals the example has, and its bulk.
fn sizes(alloc: Global) -> Result<(u32, u64), NoMemory> {
    let netlist = example(alloc)?;
    Ok((netlist.signals(), netlist.bulk()))
}

#[test]
fn reads_its_parts(rt: HostRuntime) -> Result<(), Fail> {
    assert_eq!(rt; parts(rt.alloc())?, (1, 2, 4, 7));
    // seven signals, and one mark, none, none and three
    assert_eq!(rt; sizes(rt.alloc())?, (7, 11));
    Ok(())
}
