// Expressions: their kind, their first fault and what they stand for, in one walk.
ghost use Rattle.std.specs.Prelude.{◌≡◌, IfOk};
ghost use Rattle.psl_layer_theory.specs.Kernel.{operand_of};
ghost use Rattle.psl_layer.specs.Built.{GivesPart, operand_in};
ghost use Rattle.psl_layer.specs.CheckedBy.{IsChecked};
ghost use Rattle.psl_layer.specs.Scopes.{Stands, meaning_after};

use crate::elaborated::Part;
use crate::nodes::{
    of_braces, of_clock, of_group, of_infix, of_literal, of_lone_repetition, of_next_event,
    of_next_form, of_prefix, of_repetition, of_strong,
};
use crate::operators::Operation;
use crate::scope::Scope;
use psl_grammar::Expression;
use psl_names::{PathIndex, operator_before, strength_of};
use std::alloc::Global;

/// What expressions are read over: the statements before them in their list, and the names of signals.
#[derive(Clone, Copy)]
pub(crate) struct Context<'s, 'd, 'n> {
    pub alloc: Global,
    pub scope: &'s Scope<'d>,
    pub names: &'s PathIndex<'n>,
}

impl<'s, 'd, 'n> Context<'s, 'd, 'n> {
    /// An expression, in a sere or outside of one: what is known of it, and what it stands for. A statement may be 2,045
    /// levels deep, so a level has little on the stack: its parts are in boxes, and what reads them does not recurse.
    #[tactic(auto, using(crate::proofs::Firsts::of_both))]
    pub(crate) fn elaborate(&self, in_sere: bool, expression: &Expression) -> Part
        requires { Stands self.now.scope.now self.now.names.now }
        ensures checked { IfOk result (λ new. IsChecked self.now.scope.now.before.now self.now.names.now in_sere expression.now new.value.checked) }
        ensures built { GivesPart result (meaning_after self.now.names.now self.now.scope.now.before.now in_sere expression.now) }
        ensures operand { IfOk result (λ new. operand_in new.value.sense ≡ operand_of self.now.names.now expression.now) }
    {
        let alloc = self.alloc;
        match expression {
            Expression::Prefix(operator, x) => {
                of_prefix(alloc, in_sere, operator, self.elaborate(in_sere, x)?)
            }
            Expression::Infix(x, token, y) => {
                let operation = Operation {
                    operator: operator_before(in_sere, token.kind, y),
                    strength: strength_of(token.kind),
                };
                let x = self.elaborate(in_sere, x)?;
                of_infix(alloc, in_sere, operation, x, self.elaborate(in_sere, y)?)
            }
            Expression::Postfix(x, _) => of_strong(alloc, self.elaborate(in_sere, x)?),
            Expression::Repeated(x, opening, count) => {
                of_repetition(alloc, opening, count, self.elaborate(in_sere, x)?)
            }
            Expression::Clocked(x, _, clock) => {
                let x = self.elaborate(in_sere, x)?;
                of_clock(alloc, in_sere, x, self.elaborate(false, clock)?)
            }
            Expression::Grouped(opening, x) => {
                of_group(alloc, in_sere, opening, self.elaborate(false, x)?)
            }
            Expression::Braced(opening, x) => of_braces(alloc, opening, self.elaborate(true, x)?),
            Expression::Repetition(opening, count) => of_lone_repetition(alloc, opening, count),
            Expression::Literal(token) => of_literal(alloc, token),
            Expression::Signal(path, index) => self.signal(path, index),
            Expression::Edge(word, path, index) => self.edge(word, path, index),
            Expression::NextTimes(word, count, x) => {
                of_next_form(alloc, word, count, self.elaborate(false, x)?)
            }
            Expression::NextEvent(word, condition, count, x) => {
                let condition = self.elaborate(false, condition)?;
                of_next_event(alloc, word, condition, count, self.elaborate(false, x)?)
            }
        }
    }
}
