use crate::product::Product;
use gates_theory::Circuit;
use std::marker::Model;

/// The joint states of a netlist and an automaton, up to a number of visits, as one circuit.
#[derive(Debug)]
pub struct Joint<'a> {
    pub(crate) product: Product<'a>,
    pub(crate) circuit: Circuit,
}

impl<'a> Model for Joint<'a> {
    ghost use Rattle.joint.specs.Joined.{Joined};

    ghost Value = { Joined };

    ghost use Rattle.alternating.specs.Codes.{automaton_code};
    ghost use Rattle.std.specs.Coded.{codes};

    ghost coded = { Prim.hlevel (codes, automaton_code) };

    ghost use Rattle.joint.specs.JointView.{joined_of, IsJoined};

    ghost view = { joined_of };

    ghost invariant = { IsJoined };
}

// Written out, so that a caller's proof sees one call where a value is dropped.
impl Drop for Joint<'_> {
    fn drop(self) {
        let Joint {
            product: _,
            circuit: _,
        } = self;
    }
}
