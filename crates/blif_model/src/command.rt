ghost use Rattle.std.specs.Prelude.{◌≡◌};
ghost use Rattle.blif_model.specs.Commands.{command_of};

/// What a line is by its first word.
#[derive(Clone, Copy, Debug, PartialEq, Eq)]
pub enum Command {
    /// `.model`.
    Model,
    /// `.inputs`.
    Inputs,
    /// `.outputs`.
    Outputs,
    /// `.names`.
    Names,
    /// `.latch`.
    Latch,
    /// `.clock`.
    Clock,
    /// `.end`.
    End,
    /// Another word that begins with a dot.
    Unknown,
    /// Any other word: a row of a table, if anything.
    Row,
}

/// What a line is by its first word.
pub fn command_of(word: &[u8]) -> Command
    ensures { result ≡ command_of word.now }
{
    if word == ".model".as_bytes() {
        return Command::Model;
    }
    if word == ".inputs".as_bytes() {
        return Command::Inputs;
    }
    if word == ".outputs".as_bytes() {
        return Command::Outputs;
    }
    if word == ".names".as_bytes() {
        return Command::Names;
    }
    if word == ".latch".as_bytes() {
        return Command::Latch;
    }
    if word == ".clock".as_bytes() {
        return Command::Clock;
    }
    if word == ".end".as_bytes() {
        return Command::End;
    }
    match word {
        [b'.', ..] => Command::Unknown,
        _ => Command::Row,
    }
}
