// How many lemmas of a log are live at once.
ghost use Rattle.std.specs.Prelude.{◌≡◌, ◌+◌, ◌≤◌};
ghost use Rattle.cert_theory.specs.Printed.{held_after as after_entry, most_live as most_of};
ghost use Rattle.clauses.specs.Entries.{entry_of};
ghost use Rattle.clauses.specs.Logs.{entry_words};
ghost use Rattle.clauses.specs.declared.log.TheConstants.{MOST_LOG_WORDS};

use clauses::{Entry, Log};

/// The most lemmas of a log that are live at once, where each drop is of a live one.
pub(crate) fn most_live(log: &Log) -> u32
    ensures { result ≡ most_of log.now }
{
    let _words = log.words();
    let mut entries = log.entries();
    let mut held = 0;
    let mut most = 0;
    while let Some(entry) = entries.next() {
        held = held_after(held, entry);
        most = most.max(held);
    }
    most
}

/// How many lemmas are live after an entry, from how many are before it.
fn held_after(held: u32, entry: Entry<'_>) -> u32
    requires { held + entry_words (entry_of entry) ≤ MOST_LOG_WORDS }
    ensures { result ≡ after_entry held (entry_of entry.entry) }
{
    match entry {
        Entry::Lemma { .. } => held + 1,
        Entry::Forget(_) => held.saturating_sub(1),
    }
}
