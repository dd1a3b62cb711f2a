ghost use Rattle.std.specs.Prelude.{◌≡◌, ◌++◌, ◌∷◌, [], Some};
ghost use Rattle.psl_grammar.specs.Surface.{count_node, labelled_node, node_of, report_node, signal_node, statement_node};
ghost use Rattle.psl_grammar.specs.Trees.{Absent, Between, Braced, Clocked, Declared, Directed, Edge, Grouped, Infix, Leaf, NextForm, Postfix, Posted, Prefix, Repeat, Times};
ghost use Rattle.psl_parser.specs.Steps.{Makes, MakesBy};

use crate::fault::Fault;
use psl_base::boxed;
use psl_grammar::{Count, Expression, Path, Statement};
use psl_lexer::Token;
use std::alloc::Global;

/// A piece of a tree. It is boxed as soon as it is made, so that the methods that call each other for what stands
/// inside of another piece keep a pointer to it on the stack and no node.
#[derive(Drop)]
pub struct Piece {
    pub tree: Box<Expression>,
}

impl Piece {
    /// The tree, moved.
    pub fn into_tree(self) -> Box<Expression>
        ensures { result ≡ self.tree }
    {
        let Piece { tree } = self;
        tree
    }
}

/// A repetition: the token that opens it, and its count.
#[derive(Drop)]
pub struct Repetition {
    pub opening: Token,
    pub count: Option<Count>,
}

impl Repetition {
    /// The token and the count, moved.
    pub fn into_parts(self) -> (Token, Option<Count>)
        ensures opening { result.0 ≡ self.opening }
        ensures count { result.1 ≡ self.count }
    {
        let Repetition { opening, count } = self;
        (opening, count)
    }
}

/// An operator before its operand.
pub fn prefix(alloc: Global, operator: &Token, operand: Piece) -> Result<Piece, Fault>
    ensures { Makes result (Prefix operator.now (node_of operand.tree.value)) }
{
    let operator = operator.copy(alloc)?;
    let tree = boxed(alloc, Expression::Prefix(operator, operand.into_tree()))?;
    Ok(Piece { tree })
}

/// An operator between its operands.
pub fn infix(alloc: Global, left: Piece, operator: &Token, right: Piece) -> Result<Piece, Fault>
    ensures { Makes result (Infix (node_of left.tree.value) operator.now (node_of right.tree.value)) }
{
    let operator = operator.copy(alloc)?;
    let left = left.into_tree();
    let right = right.into_tree();
    let tree = boxed(alloc, Expression::Infix(left, operator, right))?;
    Ok(Piece { tree })
}

/// An operator behind its operand.
pub fn postfix(alloc: Global, operand: Piece, operator: &Token) -> Result<Piece, Fault>
    ensures { Makes result (Postfix (node_of operand.tree.value) operator.now) }
{
    let operator = operator.copy(alloc)?;
    let tree = boxed(alloc, Expression::Postfix(operand.into_tree(), operator))?;
    Ok(Piece { tree })
}

/// What stands before a repetition, and the repetition.
pub fn repeated(alloc: Global, operand: Piece, repetition: Repetition) -> Result<Piece, Fault>
    ensures { Makes result
        (Posted (node_of operand.tree.value) (Repeat repetition.opening (count_node repetition.count))) }
{
    let (opening, count) = repetition.into_parts();
    let operand = operand.into_tree();
    let tree = boxed(alloc, Expression::Repeated(operand, opening, count))?;
    Ok(Piece { tree })
}

/// What stands before a clock, and the clock.
pub fn clocked(alloc: Global, operand: Piece, at: &Token, clock: Piece) -> Result<Piece, Fault>
    ensures { Makes result (Posted (node_of operand.tree.value) (Clocked at.now (node_of clock.tree.value))) }
{
    let at = at.copy(alloc)?;
    let operand = operand.into_tree();
    let clock = clock.into_tree();
    let tree = boxed(alloc, Expression::Clocked(operand, at, clock))?;
    Ok(Piece { tree })
}

/// What stands in round brackets.
pub fn grouped(alloc: Global, opening: &Token, inside: Piece) -> Result<Piece, Fault>
    ensures { Makes result (Grouped opening.now (node_of inside.tree.value)) }
{
    let opening = opening.copy(alloc)?;
    let tree = boxed(alloc, Expression::Grouped(opening, inside.into_tree()))?;
    Ok(Piece { tree })
}

/// What stands in braces.
pub fn braced(alloc: Global, opening: &Token, inside: Piece) -> Result<Piece, Fault>
    ensures { Makes result (Braced opening.now (node_of inside.tree.value)) }
{
    let opening = opening.copy(alloc)?;
    let tree = boxed(alloc, Expression::Braced(opening, inside.into_tree()))?;
    Ok(Piece { tree })
}

/// A number, a constant, `true` or `false`.
pub fn literal(alloc: Global, token: &Token) -> Result<Piece, Fault>
    ensures { Makes result (Leaf token.now) }
{
    let tree = boxed(alloc, Expression::Literal(token.copy(alloc)?))?;
    Ok(Piece { tree })
}

/// A next form with its count.
pub fn next_times(alloc: Global, word: &Token, count: Count, operand: Piece) -> Result<Piece, Fault>
    ensures { Makes result (NextForm word.now Absent (count_node (Some count)) (node_of operand.tree.value)) }
{
    let word = word.copy(alloc)?;
    let operand = operand.into_tree();
    let tree = boxed(alloc, Expression::NextTimes(word, count, operand))?;
    Ok(Piece { tree })
}

/// A next form with its condition, and perhaps a count.
pub fn next_event(
    alloc: Global,
    word: &Token,
    condition: Piece,
    count: Option<Count>,
    operand: Piece,
) -> Result<Piece, Fault>
    ensures { Makes result
        (NextForm word.now (node_of condition.tree.value) (count_node count) (node_of operand.tree.value)) }
{
    let word = word.copy(alloc)?;
    let condition = condition.into_tree();
    let operand = operand.into_tree();
    let tree = boxed(
        alloc,
        Expression::NextEvent(word, condition, count, operand),
    )?;
    Ok(Piece { tree })
}

/// A path, perhaps with the number of an index.
pub fn signal(alloc: Global, path: Path, number: Option<Token>) -> Result<Piece, Fault>
    ensures { Makes result (signal_node path number) }
{
    let tree = boxed(alloc, Expression::Signal(path, number))?;
    Ok(Piece { tree })
}

/// An edge of a path, perhaps with the number of an index.
pub fn edge(alloc: Global, word: &Token, path: Path, number: Option<Token>) -> Result<Piece, Fault>
    ensures { Makes result (Edge word.now (signal_node path number)) }
{
    let word = word.copy(alloc)?;
    let tree = boxed(alloc, Expression::Edge(word, path, number))?;
    Ok(Piece { tree })
}

/// A repetition that stands alone.
pub fn alone(alloc: Global, repetition: Repetition) -> Result<Piece, Fault>
    ensures { Makes result (Repeat repetition.opening (count_node repetition.count)) }
{
    let (opening, count) = repetition.into_parts();
    let tree = boxed(alloc, Expression::Repetition(opening, count))?;
    Ok(Piece { tree })
}

/// A repetition.
pub fn make_repetition(
    alloc: Global,
    opening: &Token,
    count: Option<Count>,
) -> Result<Repetition, Fault>
    ensures { MakesBy (λ made. (made.opening ≡ opening.now) × (made.count ≡ count)) result }
{
    let opening = opening.copy(alloc)?;
    Ok(Repetition { opening, count })
}

/// A count of one number.
pub fn times(alloc: Global, number: &Token) -> Result<Count, Fault>
    ensures { MakesBy (λ made. count_node (Some made) ≡ Times number.now) result }
{
    Ok(Count::Times(number.copy(alloc)?))
}

/// A count of two numbers.
pub fn between(alloc: Global, low: &Token, high: &Token) -> Result<Count, Fault>
    ensures { MakesBy (λ made. count_node (Some made) ≡ Between low.now high.now) result }
{
    let low = low.copy(alloc)?;
    Ok(Count::Between(low, high.copy(alloc)?))
}

/// Adds an equal token to some.
pub fn add(alloc: Global, names: &mut Path, name: &Token) -> Result<(), Fault>
    ensures { MakesBy (λ _. names.new ≡ names.old ++ name.now ∷ []) result }
{
    names.push(name.copy(alloc)?)?;
    Ok(())
}

/// An equal token.
pub fn copy(alloc: Global, token: &Token) -> Result<Token, Fault>
    ensures { MakesBy (λ made. made ≡ token.now) result }
{
    Ok(token.copy(alloc)?)
}

/// A directive, perhaps with a label and a text that it reports.
pub fn directive(
    alloc: Global,
    label: Option<Token>,
    word: &Token,
    property: Piece,
    report: Option<Token>,
) -> Result<Statement, Fault>
    ensures { MakesBy (λ made. statement_node made ≡
        labelled_node label (Directed word.now (node_of property.tree.value) (report_node report))) result }
{
    let word = word.copy(alloc)?;
    let property = Box::into_inner(property.into_tree());
    Ok(Statement::Directive {
        label,
        word,
        property,
        report,
    })
}

/// A declaration.
pub fn declaration(
    alloc: Global,
    word: &Token,
    name: &Token,
    body: Piece,
) -> Result<Statement, Fault>
    ensures { MakesBy (λ made. statement_node made ≡ Declared word.now name.now (node_of body.tree.value)) result }
{
    let word = word.copy(alloc)?;
    let name = name.copy(alloc)?;
    let body = Box::into_inner(body.into_tree());
    Ok(Statement::Declaration { word, name, body })
}
