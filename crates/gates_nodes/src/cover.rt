use netlist::Rows;
use psl_base::Items;

/// A table of at most four inputs by its rows: those where it is true, and those where it is false. Just one side fits
/// each vector of values.
#[derive(Debug)]
pub struct Cover {
    pub on: Rows,
    pub off: Rows,
}

// Written out, so that a caller's proof sees one call where a value is dropped.
impl Drop for Cover {
    fn drop(self) {
        let Cover { on: _, off: _ } = self;
    }
}

/// Covers in the order of their numbers.
pub type Covers = Items<Cover>;
