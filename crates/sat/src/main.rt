//! `sat`: decides whether a formula in the DIMACS format has a model.
#![tactic(auto)]

ghost use Rattle.std.specs.Prelude.{◌≡◌};
ghost use Rattle.std.specs.Process.{exit_status};

use psl_base::{DirShelf, StdSink, program_words};
use sat_command::{Report, run};
use std::process::ExitCode;

/// What the process ends with: the status of the report.
fn ended(report: &Report) -> ExitCode
    ensures { exit_status result ≡ report.now.status }
{
    ExitCode::from(report.status)
}

fn main(rt: HostRuntime) -> ExitCode {
    let Ok(words) = program_words(&rt) else {
        return ExitCode::from(8);
    };
    let mut files = DirShelf::new(&rt);
    let mut out = StdSink::new(rt.stdout());
    let mut err = StdSink::new(rt.stderr());
    let report = run(rt.alloc(), words.as_slice(), &mut files, &mut out, &mut err);
    ended(&report)
}
