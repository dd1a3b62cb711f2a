//! Compares the judge of recordings with a plain recursion over the definition of satisfaction (IEEE 1850, Annex B), and
//! both with verdicts that were worked out by hand; and so, on words with a loop, the automata of formulas, their duals
//! and the lasso judge. The rows are files; README.md tells their form. What differs goes to the standard error, how many
//! rows were compared to the standard output.
#![tactic(auto)]

mod comparing;
mod fault;
mod game;
mod loops;
mod rows;
mod scenes;

use crate::comparing::difference;
use crate::fault::Fault;
use crate::rows::{Row, read_rows};
use std::process::ExitCode;
use std::rt::{Env, Files};
use std::{env, fs};

/// How many rows were compared, and how many differ.
#[derive(Clone, Copy)]
struct Counts {
    compared: u64,
    wrong: u64,
}

/// Tells a row that differs.
fn tell(rt: &impl Eprint, name: &str, row: &Row, found: &str) -> Result<(), Fault> {
    let Row { text, samples, .. } = row;
    eprintln!(rt; "{name}: {text}\n  samples: {samples}\n  {found}")?;
    Ok(())
}

/// Compares the rows of a file.
fn compare_file(
    rt: &(impl Files + AllocGlobal + Print + Eprint),
    name: &str,
) -> Result<Counts, Fault> {
    let alloc = rt.alloc();
    let text = fs::read_to_string(rt, name)?;
    let rows = read_rows(alloc, text.as_str())?;
    let mut counts = Counts {
        compared: 0,
        wrong: 0,
    };
    for row in rows.as_slice() {
        counts.compared = counts.compared.saturating_add(1);
        if let Some(found) = difference(alloc, row)? {
            counts.wrong = counts.wrong.saturating_add(1);
            tell(rt, name, row, found.as_str())?;
        }
    }
    Ok(counts)
}

/// Compares the rows of all files that the words after the program's name tell, and says whether none differs.
fn compare_all(rt: &(impl Env + Files + AllocGlobal + Print + Eprint)) -> Result<bool, Fault> {
    let mut total = Counts {
        compared: 0,
        wrong: 0,
    };
    for name in env::args(rt)?.skip(1) {
        let file = name.as_str();
        match compare_file(rt, file) {
            Ok(Counts { compared, wrong }) => {
                total.compared = total.compared.saturating_add(compared);
                total.wrong = total.wrong.saturating_add(wrong);
                println!(rt; "{file}: {compared}")?;
            }
            Err(fault) => {
                total.wrong = total.wrong.saturating_add(1);
                eprintln!(rt; "{file}: {fault}")?;
            }
        }
    }
    let Counts { compared, wrong } = total;
    println!(rt; "total: {compared}, wrong: {wrong}")?;
    Ok(wrong == 0)
}

fn main(rt: HostRuntime) -> ExitCode {
    match compare_all(&rt) {
        Ok(true) => ExitCode::SUCCESS,
        Ok(false) | Err(_) => ExitCode::FAILURE,
    }
}
