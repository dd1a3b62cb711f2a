// What a clause watches, the lists of those that watch a literal, and what is found there.
ghost use Rattle.std.specs.Prelude.{◌^◌, ◌<◌, ◌≡◌, ◌≢◌, ◌≤◌, ◌+◌, ◌-◌, [], ◌∷◌, ◌++◌, take, drop, length, IfSome, IfNone, OnOk, OnErr};
ghost use Rattle.cdcl_propagation.specs.Watching.{Watches, IsPairOf};

use psl_base::NoMemory;
use std::alloc::Global;
use std::marker::Model;

/// The two literals that a clause watches, and some of its others. They are the same where the clause has no other.
#[derive(Clone, Copy)]
pub(crate) struct Pair {
    pub(crate) first: u32,
    pub(crate) second: u32,
    pub(crate) others: Others,
}

/// Literals of a clause that are looked at before its words are read, which lie elsewhere. A literal may stand there
/// more than once, and a watched one too.
#[derive(Clone, Copy)]
pub(crate) struct Others {
    pub(crate) third: u32,
    pub(crate) fourth: u32,
    pub(crate) fifth: u32,
    pub(crate) sixth: u32,
    pub(crate) seventh: u32,
    // The clause has no literal but the two that it watches and these.
    pub(crate) is_whole: bool,
}

/// What stands at the number that no clause has.
pub(crate) const NO_PAIR: Pair = Pair {
    first: 0,
    second: 0,
    others: Others {
        third: 0,
        fourth: 0,
        fifth: 0,
        sixth: 0,
        seventh: 0,
        is_whole: false,
    },
};

impl Pair {
    /// The other literal, where this is one of the two.
    pub(crate) fn other(self, literal: u32) -> Option<u32>
        ensures some { IfSome result (λ other. IsPairOf self literal other) }
        ensures none { IfNone result (Watches self literal → ⊥) }
    {
        if self.first == literal {
            Some(self.second)
        } else if self.second == literal {
            Some(self.first)
        } else {
            None
        }
    }
}

/// An entry of a literal's list: a clause that watches the literal, or did so once.
#[derive(Clone, Copy)]
pub(crate) struct Watch {
    pub(crate) number: u32,
    // Another literal of the clause: where it is true, nothing else has to be read.
    pub(crate) blocker: u32,
    // The clause has two literals, this list's and the blocker, and is never dropped.
    pub(crate) is_short: bool,
}

/// An entry as the lists keep it, in 8 bytes.
#[derive(Clone, Copy)]
pub(crate) struct Packed {
    // Twice the clause's number, and one more where the clause has two literals.
    code: u32,
    blocker: u32,
}

impl Model for Packed {
    ghost use Rattle.cdcl_propagation.specs.declared.watch.Watch.{Watch};
    ghost use Rattle.cdcl_propagation.specs.Packing.{packed, unpacked, packed_unpacked};

    ghost Value = { Watch };

    ghost view = { unpacked };

    ghost inverse = { packed };

    ghost inverse_ok = { λ entry sound. packed_unpacked entry };
}

impl Packed {
    pub(crate) fn new(watch: Watch) -> Packed
        requires { watch.number < 2 ^ 31 }
        ensures { result ≡ watch }
    {
        Packed {
            code: 2 * watch.number + watch.is_short as u32,
            blocker: watch.blocker,
        }
    }

    pub(crate) fn watch(self) -> Watch
        ensures is { result ≡ self }
        ensures number { result.number < 2 ^ 31 }
    {
        Watch {
            number: self.code / 2,
            blocker: self.blocker,
            is_short: self.code % 2 == 1,
        }
    }
}

/// What a look at an entry finds.
#[derive(Clone, Copy)]
pub(crate) enum Visit {
    /// The clause is true, by the blocker of this entry.
    Keep(Watch),
    /// The clause has one literal that is not false, the blocker of this entry, which is not true yet.
    Force(Watch),
    /// The clause has to watch these.
    Move(Pair),
    /// The clause was dropped, or watches other literals.
    Gone,
    /// Each literal of the clause is false.
    Conflict,
}

/// Why propagation stops before its end.
#[derive(Clone, Copy)]
pub(crate) enum Stop {
    /// Each literal of the clause of this number is false.
    Conflict(u32),
    NoMemory,
}

/// What a visit does with an entry.
#[derive(Clone, Copy)]
pub(crate) enum Outcome {
    /// It stays, as this one.
    Keep(Watch),
    /// It goes.
    Gone,
    Stop(Stop),
}

/// The entries of a literal's list.
#[derive(Drop)]
pub(crate) struct WatchList {
    entries: Vec<Packed>,
}

impl Model for WatchList {
    ghost use Rattle.std.specs.Prelude.{List};
    ghost use Rattle.cdcl_propagation.specs.declared.watch.Watch.{Watch};

    ghost Value = { List Watch };

    ghost view = { λ list. list.entries.items };
}

impl WatchList {
    pub(crate) fn new(alloc: Global) -> WatchList
        ensures { result ≡ [] }
    {
        WatchList {
            entries: Vec::new(alloc),
        }
    }

    /// Adds an entry. Where memory is refused, the list stays.
    pub(crate) fn push(&mut self, watch: Watch) -> Result<(), NoMemory>
        requires { watch.number < 2 ^ 31 }
        ensures ok { OnOk result (self.new ≡ self.old ++ watch ∷ []) }
        ensures err { OnErr result (self.new ≡ self.old) }
    {
        self.entries.push(Packed::new(watch))?;
        Ok(())
    }

    /// Takes away the last entry.
    pub(crate) fn pop(&mut self)
        ensures { self.new ≡ take (length self.old - 1) self.old }
    {
        let _last = self.entries.pop();
    }

    /// Exchanges the entries for others.
    pub(crate) fn swap(&mut self, other: &mut Vec<Packed>)
        ensures here { self.new ≡ other.old.items }
        ensures there { other.new.items ≡ self.old }
    {
        std::mem::swap(&mut self.entries, other);
    }
}

/// Takes out the entries from one place up to another.
pub(crate) fn close_gap(list: &mut Vec<Packed>, kept: usize, next: usize)
    requires order { kept ≤ next }
    requires within { next ≤ length list.old.items }
    ensures { list.new.items ≡ take kept list.old.items ++ drop next list.old.items }
{
    let size = list.len() - next + kept;
    list.copy_within(next.., kept);
    list.truncate(size);
}
