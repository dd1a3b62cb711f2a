// Literals that are held.
ghost use Rattle.std.specs.Prelude.{◌≡◌, [], None, Some, IsTrue};
ghost use Rattle.clauses.specs.Literals.{is_literal};
ghost use Rattle.run_gates.specs.Building.{Holds};

use crate::Builder;
use clauses::CnfFault;
use gates_theory::Literals;
use psl_base::NoMemory;
use std::alloc::Global;
use std::marker::Model;

/// Literals that a circuit holds, and a guard, if there is one: what is held under it counts only where it is true.
#[derive(Debug, Drop)]
pub struct Held {
    guard: Option<i32>,
    literals: Literals,
}

impl Model for Held {
    ghost use Rattle.std.specs.Prelude.{IfSome, IsTrue};
    ghost use Rattle.clauses.specs.Literals.{is_literal};
    ghost use Rattle.run_gates.specs.Building.{Holding};

    ghost Value = { Holding };

    ghost view = { λ held. record { guard = held.guard; literals = held.literals } };

    ghost invariant = { λ held. IfSome held.guard (λ literal. IsTrue (is_literal literal)) };
}

impl Held {
    /// No literal, and no guard. It takes no memory.
    pub fn new(alloc: Global) -> Held
        ensures { result ≡ record { guard = None; literals = [] } }
    {
        Held {
            guard: None,
            literals: Literals::new(alloc),
        }
    }

    /// What is held from now on counts only where a literal is true.
    pub fn guard(&mut self, literal: i32)
        requires { IsTrue (is_literal literal) }
        ensures { self.new ≡ record { guard = Some literal; literals = self.old.literals } }
    {
        self.guard = Some(literal);
    }

    /// The literals. It takes no memory.
    pub fn into_literals(self) -> Literals
        ensures { result ≡ self.literals }
    {
        let Held { guard: _, literals } = self;
        literals
    }

    /// One literal more is held.
    pub fn hold(&mut self, gates: &mut Builder, literal: i32) -> Result<(), CnfFault>
        requires { IsTrue (is_literal literal) }
        ensures { Holds gates.old gates.new self.old self.new literal result }
    {
        let counts = match self.guard {
            Some(guard) => gates.implied(guard, literal)?,
            None => literal,
        };
        self.literals.push(counts)?;
        Ok(())
    }
}
