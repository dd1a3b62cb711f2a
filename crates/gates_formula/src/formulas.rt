ghost use Rattle.std.specs.Prelude.{◌≡◌, ◌<◌, IfErr, IfOk, IsTrue};
ghost use Rattle.clauses.specs.declared.flat.CnfFault.{CnfFault};
ghost use Rattle.clauses.specs.declared.flat.TheConstants.{MOST_WORDS};
ghost use Rattle.clauses.specs.Literals.{clause_words, clauses_within};
ghost use Rattle.gates_nodes.specs.Clauses as spec;
ghost use Rattle.gates_nodes.specs.Nodes.{variables_of};

use crate::adding::{add, add_all};
use crate::asked::add_asked;
use clauses::{Clauses, Cnf, CnfFault};
use gates_builder::Builder;
use std::alloc::Global;

/// The formula of clauses over nodes: the true literal, the clauses of the nodes that are reached from the clauses'
/// literals, and the clauses. It takes time and memory in proportion to the nodes and the words.
///
/// # Errors
///
/// `TooLarge` only where there would be too many words, and `NoMemory` if memory is refused.
pub fn formula(alloc: Global, builder: &Builder, clauses: &Clauses) -> Result<Cnf, CnfFault>
    requires { IsTrue (clauses_within (variables_of builder.now.given builder.now.nodes) clauses.now) }
    ensures variables { IfOk result (λ cnf. cnf.variables ≡ variables_of builder.now.given builder.now.nodes) }
    ensures clauses { IfOk result (λ cnf. cnf.clauses
        ≡ spec.formula builder.now.covers builder.now.given builder.now.nodes clauses.now) }
    ensures large { IfErr result (λ fault. fault ≡ CnfFault.TooLarge
        → MOST_WORDS < clause_words (spec.formula builder.now.covers builder.now.given builder.now.nodes clauses.now)) }
{
    let mut cnf = Cnf::new(alloc, builder.variables());
    add(&mut cnf, &[builder.yes()])?;
    add_asked(alloc, &mut cnf, builder, clauses)?;
    add_all(&mut cnf, clauses)?;
    Ok(cnf)
}
