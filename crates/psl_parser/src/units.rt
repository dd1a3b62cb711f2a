ghost use Rattle.std.specs.Prelude.{◌<◌, ◌≤◌, length, OnOk};
ghost use Rattle.psl_grammar.specs.Parts as grammar;
ghost use Rattle.psl_grammar.specs.Parts.{Many, Sym};
ghost use Rattle.psl_grammar.specs.Surface.{statement_node, tree_node, unit_node};
ghost use Rattle.psl_grammar.specs.Trees.{built};
ghost use Rattle.psl_parser.specs.Pieces.{binding, declares, some_units, GaveBy, ReadsBinding, ReadsDirective, ReadsStatements, ReadsUnits};
ghost use Rattle.psl_parser.specs.Steps.{state, ParsedBy, Parses};

use crate::fault::Fault;
use crate::make;
use crate::parser::Parser;
use psl_base::Items;
use psl_grammar::{Path, Statement, UnitTree, VerificationUnit};
use psl_lexer::{Token, TokenKind};
use std::alloc::Global;

impl Parser<'_> {
    /// `text ::= vunit { vunit } | { statement }`
    pub fn text(&mut self, alloc: Global) -> Result<UnitTree, Fault>
        ensures fewer { length self.new.rest.now ≤ length self.old.rest.now }
        ensures parsed { ParsedBy tree_node grammar.Text (state self.old) result (state self.new) }
    {
        if self.at(TokenKind::Vunit) {
            let units = self.units(alloc)?;
            return Ok(UnitTree::Units(units));
        }
        let statements = self.statements(alloc)?;
        Ok(UnitTree::Statements(statements))
    }

    /// `{ vunit }`
    fn units(&mut self, alloc: Global) -> Result<Items<VerificationUnit>, Fault>
        ensures fewer { length self.new.rest.now ≤ length self.old.rest.now }
        ensures parsed { Parses ReadsUnits some_units (state self.old) result (state self.new) }
    {
        let mut units = Items::new(alloc);
        while self.at(TokenKind::Vunit) {
            let unit = self.unit(alloc)?;
            units.push(unit)?;
        }
        Ok(units)
    }

    /// `vunit ::= "vunit" NAME [ "(" path ")" ] "{" { statement } "}"`
    fn unit(&mut self, alloc: Global) -> Result<VerificationUnit, Fault>
        ensures fewer { length self.new.rest.now ≤ length self.old.rest.now }
        ensures shorter { OnOk result (length self.new.rest.now < length self.old.rest.now) }
        ensures parsed { ParsedBy unit_node grammar.Vunit (state self.old) result (state self.new) }
    {
        self.take(TokenKind::Vunit)?;
        let name = self.take(TokenKind::Name)?;
        let binding = self.binding(alloc)?;
        self.take(TokenKind::BraceOpen)?;
        let statements = self.statements(alloc)?;
        self.take(TokenKind::BraceClose)?;
        let name = make::copy(alloc, name)?;
        Ok(VerificationUnit {
            name,
            binding,
            statements,
        })
    }

    /// `[ "(" path ")" ]`
    fn binding(&mut self, alloc: Global) -> Result<Option<Path>, Fault>
        ensures fewer { length self.new.rest.now ≤ length self.old.rest.now }
        ensures parsed { Parses ReadsBinding binding (state self.old) result (state self.new) }
    {
        if !self.at(TokenKind::ParenOpen) {
            return Ok(None);
        }
        self.take(TokenKind::ParenOpen)?;
        let path = self.path(alloc)?;
        self.take(TokenKind::ParenClose)?;
        Ok(Some(path))
    }

    /// `{ statement }`
    fn statements(&mut self, alloc: Global) -> Result<Items<Statement>, Fault>
        ensures fewer { length self.new.rest.now ≤ length self.old.rest.now }
        ensures parsed { Parses ReadsStatements (Many (Sym grammar.Statement))
            (state self.old) result (state self.new) }
    {
        let mut statements = Items::new(alloc);
        while self.at_statement() {
            let statement = self.statement(alloc)?;
            statements.push(statement)?;
        }
        Ok(statements)
    }

    /// `statement ::= [ NAME ":" ] directive | declaration`
    fn statement(&mut self, alloc: Global) -> Result<Statement, Fault>
        ensures fewer { length self.new.rest.now ≤ length self.old.rest.now }
        ensures shorter { OnOk result (length self.new.rest.now < length self.old.rest.now) }
        ensures parsed { ParsedBy statement_node grammar.Statement (state self.old) result (state self.new) }
    {
        if self.at_directive() {
            let label = self.label(alloc)?;
            self.directive(alloc, label)
        } else {
            self.declaration(alloc)
        }
    }

    /// `directive ::= ( "assert" | "assume" | "cover" ) prop [ "report" STRING ] ";"`
    fn directive(&mut self, alloc: Global, label: Option<Token>) -> Result<Statement, Fault>
        ensures fewer { length self.new.rest.now ≤ length self.old.rest.now }
        ensures shorter { OnOk result (length self.new.rest.now < length self.old.rest.now) }
        ensures parsed { Parses (ReadsDirective label) (Sym grammar.Directive)
            (state self.old) result (state self.new) }
    {
        let word = self.take_any(&[TokenKind::Assert, TokenKind::Assume, TokenKind::Cover])?;
        let property = self.property(alloc)?;
        let report = self.report(alloc)?;
        self.take(TokenKind::Semicolon)?;
        make::directive(alloc, label, word, property, report)
    }

    /// `declaration ::= "sequence" NAME "=" prop ";" | "property" NAME "=" prop ";"
    /// | "default" "clock" "=" prop ";"`
    fn declaration(&mut self, alloc: Global) -> Result<Statement, Fault>
        ensures fewer { length self.new.rest.now ≤ length self.old.rest.now }
        ensures shorter { OnOk result (length self.new.rest.now < length self.old.rest.now) }
        ensures parsed { ParsedBy statement_node grammar.Declaration (state self.old) result (state self.new) }
    {
        if self.at(TokenKind::Sequence) {
            self.declared(alloc, TokenKind::Sequence, TokenKind::Name)
        } else if self.at(TokenKind::Property) {
            self.declared(alloc, TokenKind::Property, TokenKind::Name)
        } else {
            self.declared(alloc, TokenKind::Default, TokenKind::Clock)
        }
    }

    /// Two tokens, `"=" prop ";"`
    fn declared(
        &mut self,
        alloc: Global,
        word: TokenKind,
        name: TokenKind,
    ) -> Result<Statement, Fault>
        ensures fewer { length self.new.rest.now ≤ length self.old.rest.now }
        ensures shorter { OnOk result (length self.new.rest.now < length self.old.rest.now) }
        ensures parsed { Parses (GaveBy statement_node (built grammar.Declaration) (declares word name))
            (declares word name) (state self.old) result (state self.new) }
    {
        let word = self.take(word)?;
        let name = self.take(name)?;
        self.take(TokenKind::Equals)?;
        let body = self.property(alloc)?;
        self.take(TokenKind::Semicolon)?;
        make::declaration(alloc, word, name, body)
    }
}
