//! Runs cases that are kept as files. A case is a command of `pslc` or `sat`, the files that it reads, and what it prints and
//! ends with; README.md tells the form. What differs goes to the standard error, how many cases ran to the standard output.
#![tactic(auto)]

mod case;
mod content;
mod fault;
mod pieces;
mod reading;
mod running;

use crate::fault::Fault;
use crate::reading::read_cases;
use crate::running::difference;
use commands::one_refusal;
use std::process::ExitCode;
use std::rt::{Env, Files};
use std::{env, fs};

/// How many cases ran, and how many differ.
#[derive(Clone, Copy)]
struct Counts {
    ran: u64,
    wrong: u64,
}

/// Tells a case that differs.
fn tell(rt: &impl Eprint, name: &str, title: &str, found: &str) -> Result<(), Fault> {
    eprintln!(rt; "{name}: {title}\n{found}")?;
    Ok(())
}

/// Runs the cases of a file.
fn run_file(rt: &(impl Files + AllocGlobal + Print + Eprint), name: &str) -> Result<Counts, Fault> {
    let alloc = rt.alloc();
    let text = fs::read_to_string(rt, name)?;
    let all = read_cases(alloc, text.as_str())?;
    let mut counts = Counts { ran: 0, wrong: 0 };
    let Some((common, cases)) = all.as_slice().split_first() else {
        return Ok(counts);
    };
    for case in cases {
        counts.ran = counts.ran.saturating_add(1);
        if let Some(found) = difference(alloc, common, case)? {
            counts.wrong = counts.wrong.saturating_add(1);
            tell(rt, name, case.title, found.as_str())?;
        }
    }
    Ok(counts)
}

/// Runs the cases of all files that the words after the program's name tell, and says whether there were some and all are as
/// they should be.
fn run_all(rt: &(impl Env + Files + AllocGlobal + Print + Eprint)) -> Result<bool, Fault> {
    let mut total = Counts { ran: 0, wrong: 0 };
    for name in env::args(rt)?.skip(1) {
        let file = name.as_str();
        match run_file(rt, file) {
            Ok(Counts { ran, wrong }) => {
                total.ran = total.ran.saturating_add(ran);
                total.wrong = total.wrong.saturating_add(wrong);
                println!(rt; "{file}: {ran}")?;
            }
            Err(fault) => {
                total.wrong = total.wrong.saturating_add(1);
                eprintln!(rt; "{file}: {fault}")?;
            }
        }
    }
    let Counts { ran, wrong } = total;
    println!(rt; "total: {ran}, wrong: {wrong}")?;
    Ok(wrong == 0 && ran > 0)
}

fn main(rt: HostRuntime) -> ExitCode {
    // A case has one right answer: the words over the files have one first refusal, or none.
    one_refusal();
    match run_all(&rt) {
        Ok(true) => ExitCode::SUCCESS,
        Ok(false) | Err(_) => ExitCode::FAILURE,
    }
}
