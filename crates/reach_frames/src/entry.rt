// What leads into a cube.
use psl_base::{Bits, Items};

/// States in order, each of which follows the one before it.
pub type Path = Items<Bits>;

/// Two neighbouring states.
#[derive(Debug, Drop)]
pub struct Entry {
    pub before: Bits,
    pub after: Bits,
}

/// Whether something leads into a cube.
#[derive(Debug, Drop)]
pub enum Entered {
    /// Two states that do.
    Found(Entry),
    /// Nothing does. The mask has a bit for each bit of a state: those by which the cube was kept out. It is a hint, and
    /// nothing is promised of it.
    Kept(Bits),
}
