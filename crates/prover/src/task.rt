use crate::options::Options;
use netlist::Netlist;
use psl_tree::{Directive, Unit};

/// What is to be proved: that each run of the netlist satisfies what is owed of a directive of the text: an assertion or a cover.
#[derive(Clone, Copy)]
pub struct Task<'a> {
    pub unit: &'a Unit,
    pub directive: &'a Directive,
    pub netlist: &'a Netlist,
    pub options: Options,
}
