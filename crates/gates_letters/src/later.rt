// What makes the literals of obligations at the next place.
ghost use Rattle.std.specs.Prelude.{ℕ, List};
ghost use Rattle.gates_nodes.specs.declared.node.Node.{Node};
ghost use Rattle.gates_nodes.specs.Folding.{Built};
ghost use Rattle.gates_builder.specs.Adding.{with_nodes, Adds, Making};
ghost use Rattle.gates_letters.specs.Extending.{Extends};

use crate::literals::literal_at;
use clauses::CnfFault;
use gates_builder::Builder;

/// What makes the literal of each obligation at the next place, behind the nodes that there are.
pub trait Later {
    /// The nodes and the literal of an obligation, by how many variables are given, its number, and the nodes before.
    ghost made: { Self → ℕ → ℕ → List Node → Built };

    /// What is asked of a builder.
    ghost ready: { Self → Making → Type 0 };

    /// The literal of an obligation.
    ///
    /// # Errors
    ///
    /// `TooLarge` only where there would be too many variables, and `NoMemory` if memory is refused.
    fn literal(&self, builder: &mut Builder, number: u32) -> Result<i32, CnfFault>
        requires { ready self.now builder.old }
        ensures { Adds builder.old builder.new (made self.now builder.old.given number builder.old.nodes) result };

    /// The nodes before stay.
    ghost grows: { (later : Self) (given number : ℕ) (nodes : List Node)
        → Extends nodes (made later given number nodes).nodes };

    /// What is asked of a builder holds on while nodes follow.
    ghost stays: { (later : Self) (making : Making) (nodes : List Node)
        → ready later making → Extends making.nodes nodes → ready later (with_nodes making nodes) };
}

/// A list that has a literal for each obligation, by its number. An obligation without one is not met.
#[derive(Clone, Copy)]
pub struct Listed<'a> {
    pub literals: &'a [i32],
}

impl Later for Listed<'_> {
    ghost use Rattle.gates_builder.specs.Adding.{AreOf};
    ghost use Rattle.gates_letters.specs.Combinations.{listed};
    ghost use Rattle.gates_letters.specs.Extending.{all-extends, extends-same};

    ghost made = { λ later given number nodes. listed given later.literals.now number nodes };

    ghost ready = { λ later making. AreOf making later.literals.now };

    fn literal(&self, builder: &mut Builder, number: u32) -> Result<i32, CnfFault> {
        Ok(literal_at(builder, self.literals, number))
    }

    ghost grows = { λ later given number nodes. extends-same nodes };

    ghost stays = { λ later making nodes ready extends. all-extends making nodes later.literals.now ready extends };
}
