// The nodes of tables.
ghost use Rattle.std.specs.Prelude.{◌≡◌, ◌<◌, ℕ, [], ◌∷◌, length, IfOk, IfSome, IsTrue};
ghost use Rattle.clauses.specs.declared.flat.TheConstants.{MOST_VARIABLES};
ghost use Rattle.clauses.specs.Literals.{clause_within, is_within};
ghost use Rattle.gates_nodes.specs.Folding.{conjoined_all};
ghost use Rattle.gates_nodes.specs.Nodes.{cover_at};
ghost use Rattle.gates_nodes.specs.Tables as spec;
ghost use Rattle.gates_nodes.specs.Tables.{asked, some_row, tabled};
ghost use Rattle.gates_builder.specs.Adding.{Adds, AreLiterals, AreOf};

use crate::Builder;
use crate::left::{cubes, has_nil, marked, sole};
use crate::literals::{negated, no, yes};
use clauses::CnfFault;
use gates_nodes::{Cover, Node};
use netlist::{Mark, Rows};
use psl_base::NoMemory;
use std::alloc::Global;

impl Builder {
    /// All of some literals.
    pub fn all(&mut self, literals: &[i32]) -> Result<i32, CnfFault>
        requires { AreOf self.old literals.now }
        ensures { Adds self.old self.new (conjoined_all self.old.given self.old.nodes literals.now) result }
    {
        let mut output = self.yes();
        for i in 0..literals.len() {
            output = self.and(output, literals[i])?;
        }
        Ok(output)
    }

    /// A row fits literals: they are true or false as its marks ask.
    pub fn row(&mut self, row: &[Mark], literals: &[i32]) -> Result<i32, CnfFault>
        requires { AreOf self.old literals.now }
        ensures { Adds self.old self.new
            (conjoined_all self.old.given self.old.nodes (asked self.old.given row.now literals.now)) result }
    {
        let given = self.given();
        let mut output = self.yes();
        let count = row.len().min(literals.len());
        for i in 0..count {
            output = self.and(output, marked(given, row[i], literals[i]))?;
        }
        Ok(output)
    }

    /// Some row fits literals.
    pub fn rows(&mut self, rows: &Rows, literals: &[i32]) -> Result<i32, CnfFault>
        requires { AreOf self.old literals.now }
        ensures { Adds self.old self.new (some_row self.old.given self.old.nodes rows.now literals.now) result }
    {
        let mut output = self.no();
        for i in 0..rows.len() {
            let fits = self.row(rows.at(i), literals)?;
            output = self.or(output, fits)?;
        }
        Ok(output)
    }

    /// What a cover says of four literals. The cover is named by its place.
    pub fn table(
        &mut self,
        alloc: Global,
        cover: u32,
        first: i32,
        second: i32,
        third: i32,
        fourth: i32,
    ) -> Result<i32, CnfFault>
        requires listed { cover < length self.old.covers }
        requires literals { AreOf self.old (first ∷ second ∷ third ∷ fourth ∷ []) }
        ensures { Adds self.old self.new
            (tabled self.old.covers self.old.given self.old.nodes cover first second third fourth) result }
    {
        let given = self.given();
        let literals = [first, second, third, fourth];
        match told_by(alloc, given, self.covers().at(cover as usize), &literals) {
            Ok(Some(literal)) => Ok(literal),
            Ok(None) => self.push(Node::Lut(cover, first, second, third, fourth)),
            Err(NoMemory) => Err(CnfFault::NoMemory),
        }
    }
}

// The literal that says what two sides say, if one does.
fn told_by(
    alloc: Global,
    given: u32,
    cover: &Cover,
    literals: &[i32],
) -> Result<Option<i32>, NoMemory>
    requires given { given < MOST_VARIABLES }
    requires literals { AreLiterals literals.now }
    ensures is { IfOk result (λ told. told
        ≡ spec.told_by given (spec.cubes given cover.now.on literals.now) (spec.cubes given cover.now.off literals.now)) }
    ensures within { IfOk result (λ told. IfSome told (λ literal. (n : ℕ) → given < n → IsTrue (clause_within n literals.now)
        → IsTrue (is_within n literal))) }
{
    let on = cubes(alloc, given, &cover.on, literals)?;
    let off = cubes(alloc, given, &cover.off, literals)?;
    if has_nil(on.as_slice()) {
        return Ok(Some(yes(given)));
    }
    if has_nil(off.as_slice()) {
        return Ok(Some(no(given)));
    }
    match sole(on.as_slice()) {
        Some(literal) => Ok(Some(literal)),
        None => match sole(off.as_slice()) {
            Some(literal) => Ok(Some(negated(literal))),
            None => Ok(None),
        },
    }
}
