use psl_base::Items;

/// A gate of a circuit. Gate k, counted from 1, is the literal k, and its negation -k.
#[derive(Clone, Copy, Debug)]
pub enum Gate {
    /// Its value is free at every position: an input, a state bit or a choice.
    Free,
    /// The conjunction of two literals.
    And(i32, i32),
}

/// Gates in the order of their numbers.
pub type Gates = Items<Gate>;

/// Literals of gates.
pub type Literals = Items<i32>;

/// A circuit with state bits.
#[derive(Debug)]
pub struct Circuit {
    /// The gates; a conjunction names earlier ones.
    pub gates: Gates,
    /// The state bits: free gates, by positive literals.
    pub now: Literals,
    /// The value of each state bit at the next position.
    pub next: Literals,
    /// What is true at every position but the last.
    pub hold: Literals,
}

// Written out, so that a caller's proof sees one call where a value is dropped.
impl Drop for Circuit {
    fn drop(self) {
        let Circuit {
            gates: _,
            now: _,
            next: _,
            hold: _,
        } = self;
    }
}
