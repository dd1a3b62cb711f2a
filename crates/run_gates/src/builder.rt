// Gates in the making.
ghost use Rattle.std.specs.Prelude.{◌≡◌, ◌+◌, ◌<◌, ◌≤◌, [], ◌∷◌, ◌++◌, length, pos, neg_ℤ, replicate, IfOk, IfErr, OnOk, IsTrue};
ghost use Rattle.clauses.specs.declared.flat.CnfFault.{CnfFault};
ghost use Rattle.clauses.specs.declared.flat.TheConstants.{MOST_VARIABLES};
ghost use Rattle.clauses.specs.Literals.{is_literal, is_within};
ghost use Rattle.gates_theory.specs.declared.circuit.Gate.{Gate};
ghost use Rattle.gates_theory.specs.declared.circuit.Gate.TheVariants.{Free, And};
ghost use Rattle.gates_theory.specs.Terms.{with_conjunction, with_equality};
ghost use Rattle.run_gates.specs.Building.{IsTooMany};

use clauses::{CnfFault, MOST_VARIABLES};
use gates_theory::{Gate, Gates};
use psl_base::NoMemory;
use std::alloc::Global;
use std::marker::Model;

/// Gates in the making, never more than there may be variables. After an error they are of no use.
#[derive(Debug, Drop)]
pub struct Builder {
    gates: Gates,
}

impl Model for Builder {
    ghost use Rattle.std.specs.Prelude.{◌≤◌, List, length};
    ghost use Rattle.clauses.specs.declared.flat.TheConstants.{MOST_VARIABLES};
    ghost use Rattle.gates_theory.specs.declared.circuit.Gate.{Gate};

    ghost Value = { List Gate };

    ghost view = { λ builder. builder.gates };

    ghost invariant = { λ builder. length builder.gates ≤ MOST_VARIABLES };
}

impl Builder {
    /// No gates. It takes no memory.
    pub fn new(alloc: Global) -> Builder
        ensures { result ≡ [] }
    {
        Builder {
            gates: Gates::new(alloc),
        }
    }

    /// How many gates there are.
    pub fn len(&self) -> u32
        ensures is { result ≡ length self.now }
        ensures few { result ≤ MOST_VARIABLES }
    {
        self.gates.len() as u32
    }

    /// The gates. It takes no memory.
    pub fn into_gates(self) -> Gates
        ensures is { result ≡ self }
        ensures few { length result ≤ MOST_VARIABLES }
    {
        let Builder { gates } = self;
        gates
    }

    // One gate more.
    fn push(&mut self, gate: Gate) -> Result<(), CnfFault>
        ensures ok { OnOk result (self.new ≡ self.old ++ gate ∷ []) }
        ensures few { OnOk result (length self.new ≤ MOST_VARIABLES) }
        ensures large { IfErr result (λ fault. fault ≡ CnfFault.TooLarge → IsTooMany (length self.old) 1) }
    {
        if self.gates.len() >= MOST_VARIABLES as usize {
            return Err(CnfFault::TooLarge);
        }
        self.gates.push(gate)?;
        Ok(())
    }

    /// So many free gates more.
    pub fn free(&mut self, count: u32) -> Result<(), CnfFault>
        ensures ok { OnOk result (self.new ≡ self.old ++ replicate count Free) }
        ensures large { IfErr result (λ fault. fault ≡ CnfFault.TooLarge → IsTooMany (length self.old) count) }
    {
        for _ in 0..count {
            self.push(Gate::Free)?;
        }
        Ok(())
    }

    /// The conjunction of two literals.
    pub fn and(&mut self, first: i32, second: i32) -> Result<i32, CnfFault>
        ensures gates { OnOk result (self.new ≡ (with_conjunction self.old first second).gates) }
        ensures output { IfOk result (λ output. output ≡ (with_conjunction self.old first second).output) }
        ensures literal { IfOk result (λ output. IsTrue (is_literal output)) }
        ensures size { OnOk result (length self.new ≡ length self.old + 1) }
        ensures large { IfErr result (λ fault. fault ≡ CnfFault.TooLarge → IsTooMany (length self.old) 1) }
    {
        let before = self.gates.len();
        self.push(Gate::And(first, second))?;
        Ok(before as i32 + 1)
    }

    /// One of two literals.
    pub fn either(&mut self, first: i32, second: i32) -> Result<i32, CnfFault>
        requires first { IsTrue (is_literal first) }
        requires second { IsTrue (is_literal second) }
        ensures gates { OnOk result (self.new ≡ (with_conjunction self.old (neg_ℤ first) (neg_ℤ second)).gates) }
        ensures output { IfOk result (λ output. output
            ≡ neg_ℤ (with_conjunction self.old (neg_ℤ first) (neg_ℤ second)).output) }
        ensures literal { IfOk result (λ output. IsTrue (is_literal output)) }
        ensures size { OnOk result (length self.new ≡ length self.old + 1) }
        ensures large { IfErr result (λ fault. fault ≡ CnfFault.TooLarge → IsTooMany (length self.old) 1) }
    {
        let neither = self.and(negated(first), negated(second))?;
        Ok(negated(neither))
    }

    /// If a literal is true, so is another.
    pub fn implied(&mut self, guard: i32, other: i32) -> Result<i32, CnfFault>
        requires guard { IsTrue (is_literal guard) }
        requires other { IsTrue (is_literal other) }
        ensures gates { OnOk result (self.new ≡ (with_conjunction self.old guard (neg_ℤ other)).gates) }
        ensures output { IfOk result (λ output. output
            ≡ neg_ℤ (with_conjunction self.old guard (neg_ℤ other)).output) }
        ensures literal { IfOk result (λ output. IsTrue (is_literal output)) }
        ensures size { OnOk result (length self.new ≡ length self.old + 1) }
        ensures large { IfErr result (λ fault. fault ≡ CnfFault.TooLarge → IsTooMany (length self.old) 1) }
    {
        let fails = self.and(guard, negated(other))?;
        Ok(negated(fails))
    }

    /// Whether two literals have one value.
    pub fn equal(&mut self, first: i32, second: i32) -> Result<i32, CnfFault>
        requires first { IsTrue (is_literal first) }
        requires second { IsTrue (is_literal second) }
        ensures gates { OnOk result (self.new ≡ (with_equality self.old first second).gates) }
        ensures output { IfOk result (λ output. output ≡ (with_equality self.old first second).output) }
        ensures literal { IfOk result (λ output. IsTrue (is_literal output)) }
        ensures size { OnOk result (length self.new ≡ length self.old + 3) }
        ensures large { IfErr result (λ fault. fault ≡ CnfFault.TooLarge → IsTooMany (length self.old) 3) }
    {
        let both = self.and(first, second)?;
        let neither = self.and(negated(first), negated(second))?;
        let different = self.and(negated(both), negated(neither))?;
        Ok(negated(different))
    }
}

/// The negation of a literal.
pub fn negated(literal: i32) -> i32
    requires { IsTrue (is_literal literal) }
    ensures is { result ≡ neg_ℤ literal }
    ensures literal { IsTrue (is_literal result) }
{
    -literal
}
