ghost use Rattle.std.specs.Prelude.{◌≡◌};
ghost use Rattle.psl_tree.specs.Holds.{is_same_atom};

use psl_base::Items;

/// What an atom asks of its bit: that it is 1, or that it went from 0 to 1, or from 1 to 0.
#[derive(Clone, Copy, Debug, PartialEq, Eq)]
pub enum Edge {
    Value,
    Rise,
    Fall,
}

/// A bit of a signal, or a rise or a fall of it. Signals are numbered from 0. The bit is its place
/// in the signal counted from the right, from 0.
#[derive(Clone, Copy, Debug, PartialEq, Eq)]
pub struct Atom {
    pub signal: u32,
    pub bit: u32,
    pub edge: Edge,
}

/// Atoms, such as those that hold at one moment.
pub type Atoms = Items<Atom>;

/// Whether two atoms ask the same of the same bit.
pub fn same_atom(left: &Atom, right: &Atom) -> bool
    ensures { result ≡ is_same_atom left.now right.now }
{
    left.signal == right.signal && left.bit == right.bit && left.edge as u8 == right.edge as u8
}
