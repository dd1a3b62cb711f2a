use psl_base::{Bits, Items};

/// Numbers of obligations, counted from 0, in rising order.
pub type Places = Items<u32>;

/// A state of a netlist together with what an automaton owes there.
#[derive(Debug, Drop)]
pub struct JointState {
    /// The valuation one step before, if there is one.
    pub before: Option<Bits>,
    /// A value for each signal, in the order of their numbers.
    pub valuation: Bits,
    /// The obligations that are owed here.
    pub owed: Places,
    /// Those of them that are not accepting and were put off since all that was pending had been met.
    pub pending: Places,
    /// How many times all that was pending had been met; it is counted up to one more than the visits.
    pub count: u32,
}

/// Joint states in order.
pub type JointStates = Items<JointState>;

/// Joint states of which each is a neighbour of the one before it.
#[derive(Debug, Drop)]
pub struct JointPath {
    pub states: JointStates,
}
