// What no clause says: that the calls succeed with ample memory, and how many gates a term takes.
ghost use Rattle.std.specs.Prelude.{◌≡◌};
ghost use Rattle.gates_theory.specs.Terms.{Literal};
ghost use Rattle.psl_tree.specs.Trees.{boolean_of, Test};
ghost use Rattle.psl_tree.specs.declared.atom.Edge as Edge;
ghost use Rattle.run_gates.specs.Building.{place_at};

use alternating::Positive;
use clauses::CnfFault;
use psl_base::boxed;
use psl_tree::{Atom, Bool, Edge};
use run_gates::{Builder, Owing, Position, add_positive};
use std::test::Fail;

// Ten obligations, each with a variable behind the first 20.
#[derive(Drop)]
struct Ten;

impl Owing for Ten {
    ghost count = { λ _. 10 };

    ghost term = { λ _ number. Literal (place_at 20 number) };

    fn add_owed(&self, _gates: &mut Builder, number: u32) -> Result<i32, CnfFault> {
        Ok((20 + number + 1) as i32)
    }
}

// A rise of the first signal.
fn rise() -> Bool
    ensures { boolean_of result ≡ Test (record { signal = 0; bit = 0; edge = Edge.Rise }) }
{
    Bool::Test(Atom {
        signal: 0,
        bit: 0,
        edge: Edge::Rise,
    })
}

// A rise of the first of three signals, or obligation 7. The rise is two conjunctions, and that one of both holds a third.
#[test]
fn a_combination_has_gates(rt: HostRuntime) -> Result<(), Fail> {
    let mut gates = Builder::new(rt.alloc());
    gates.free(40)?;
    let owed = boxed(rt.alloc(), Positive::Owed(7))?;
    let either = Positive::Or(boxed(rt.alloc(), Positive::Holds(rise()))?, owed);
    let position = Position {
        signals: 3,
        base: 0,
    };
    let output = add_positive(&mut gates, position, &Ten, &either)?;
    assert_eq!(rt; output, -43);
    assert_eq!(rt; gates.len(), 43);
    Ok(())
}
