// A formula that is refuted as it is read.
ghost use Rattle.std.specs.Prelude.{Some, IfOk};
ghost use Rattle.cdcl.specs.Loading.{IsLoaded};
ghost use Rattle.cdcl.specs.Answers.{IsRefutation};

use cdcl_propagation::Propagator;
use clauses::{Cnf, Entry, Log};
use psl_base::NoMemory;
use std::alloc::Global;

/// The log of the empty lemma, where the clause at a place is false by the clauses of one literal before it.
pub(crate) fn refute(
    alloc: Global,
    cnf: &Cnf,
    propagator: &Propagator,
    place: usize,
) -> Result<Log, NoMemory>
    requires { IsLoaded cnf.now propagator.now (Some place) }
    ensures { IfOk result (IsRefutation cnf.now 1) }
{
    let _few = cnf.clauses.words();
    let mut hints = Vec::new(alloc);
    hints.extend_from_slice(propagator.trail().reasons())?;
    hints.push(place as u32 + 1)?;
    let mut log = Log::new(alloc);
    log.push(Entry::Lemma {
        literals: &[],
        hints: &hints,
    })?;
    Ok(log)
}
