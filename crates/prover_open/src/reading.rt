// A path and the automaton that reads its letters.
use alternating::Alternating;
use netlist::{Netlist, Valuations};

/// A path of a netlist as an automaton reads it: the letters at its places tell what obligations ask for and what
/// meets them.
#[derive(Clone, Copy)]
pub(crate) struct Reading<'a> {
    /// The netlist of the path. Its names say which atoms hold in a letter.
    pub netlist: &'a Netlist,
    /// The automaton whose obligations are owed and pending at the places of the path.
    pub automaton: &'a Alternating,
    /// The valuations of the path, one for each place, counted from 0. The letter at a place is of the valuation there
    /// and, for edges, of the one before it.
    pub path: &'a Valuations,
}
