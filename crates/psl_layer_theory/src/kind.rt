/// What an expression is. A Boolean is accepted where a sequence or a property is wanted, and a sequence where a
/// property is wanted (IEEE 1850, clauses 5 and 6).
#[derive(Clone, Copy, Debug, PartialEq, Eq)]
pub enum ExpressionKind {
    Boolean,
    Sequence,
    Property,
}
