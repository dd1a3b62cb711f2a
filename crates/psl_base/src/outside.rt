ghost use Rattle.std.specs.Prelude.{◌≡◌, ◌≢◌, ◌+◌, ◌^◌, ◌<◌, ◌≤◌, None, length, IfOk, OnOk, OnErr};
ghost use Rattle.psl_base.specs.Shelf.{ShelfState, OnlyReads, Selects, SelectFails, Reads, ReadFails, OnlyWrites, Creates, CreateFails, Appends, AppendFails};
ghost use Rattle.psl_base.specs.Sink.{SinkState, Puts, PutFails};

/// A call of the outside world failed. What it was called on has counted the fault, or its count stands at the last
/// value, or a name was selected that is told not to be there.
#[derive(Clone, Copy, Debug, PartialEq, Eq)]
pub struct Failed;

/// Named files, of which one can be read and one written at a time.
///
/// A call answers `Failed` only where its own count of faults rose in the call or stands at its
/// last value, or, at `select` alone, where the shelf tells that the name is not there.
/// No call raises the other count, and a call that answers `Ok` raises none.
pub trait Shelf {
    /// The contents, where the shelf tells them, the selected name and its cursor, the created
    /// name, and the counts of faults in reading and in writing.
    ghost state: { Self → ShelfState };

    /// Chooses the name to read, from its first byte on. After a failure no name is selected.
    fn select(&mut self, name: &str) -> Result<(), Failed>
        ensures ok { OnOk result (Selects name.now (state self.old) (state self.new)) }
        ensures failed { OnErr result (SelectFails name.now (state self.old) (state self.new)) }
        ensures rest { OnlyReads (state self.old) (state self.new) };

    /// Writes the next bytes of the selected name to the front of a buffer and says how many,
    /// 0 at the end alone. After a failure the cursor is as before.
    fn read(&mut self, into: &mut [u8]) -> Result<usize, Failed>
        requires selected { (state self.old).selected ≢ None }
        requires room { 0 < length into.old }
        requires cursor { (state self.old).cursor + length into.old < 2 ^ 63 }
        ensures ok { IfOk result (λ count. Reads count into.new (state self.old) (state self.new)) }
        ensures failed { OnErr result (ReadFails (state self.old) (state self.new)) }
        ensures rest { OnlyReads (state self.old) (state self.new) };

    /// Gives a name an empty content, whether it was there or not, and ends any selection.
    /// After a failure no name is created.
    fn create(&mut self, name: &str) -> Result<(), Failed>
        ensures ok { OnOk result (Creates name.now (state self.old) (state self.new)) }
        ensures failed { OnErr result (CreateFails (state self.old) (state self.new)) }
        ensures rest { OnlyWrites (state self.old) (state self.new) };

    /// Adds the first bytes of a piece to the created name and says how many. After a failure
    /// its content is as before.
    fn append(&mut self, bytes: &[u8]) -> Result<usize, Failed>
        requires { (state self.old).created ≢ None }
        ensures ok { IfOk result (λ count. Appends count bytes.now (state self.old) (state self.new)) }
        ensures failed { OnErr result (AppendFails (state self.old) (state self.new)) }
        ensures rest { OnlyWrites (state self.old) (state self.new) };
}

/// Takes bytes in order, as a terminal or a pipe does.
///
/// A call answers `Failed` only where the count of faults rose in the call or stands at its last
/// value, and a call that answers `Ok` does not raise it.
pub trait Sink {
    /// What was written, where the sink tells it, and the count of faults.
    ghost state: { Self → SinkState };

    /// Adds the first bytes of a piece and says how many. After a failure nothing was added.
    fn put(&mut self, bytes: &[u8]) -> Result<usize, Failed>
        ensures ok { IfOk result (λ count. Puts count bytes.now (state self.old) (state self.new)) }
        ensures failed { OnErr result (PutFails (state self.old) (state self.new)) };
}
