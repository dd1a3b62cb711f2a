ghost use Rattle.std.specs.Prelude.{◌≡◌, suc, ◌<◌, ◌≤◌, neg_ℤ, IsTrue};
ghost use Rattle.clauses.specs.declared.flat.TheConstants.{MOST_VARIABLES};
ghost use Rattle.clauses.specs.Literals.{is_literal, variable_of};
ghost use Rattle.gates_nodes.specs.Nodes as spec;

/// The negation of a literal.
pub fn negated(literal: i32) -> i32
    requires { IsTrue (is_literal literal) }
    ensures is { result ≡ neg_ℤ literal }
    ensures literal { IsTrue (is_literal result) }
{
    -literal
}

/// The literal that is true, behind so many given variables.
pub fn yes(given: u32) -> i32
    requires { given < MOST_VARIABLES }
    ensures is { result ≡ spec.yes given }
    ensures literal { IsTrue (is_literal result) }
{
    (given + 1) as i32
}

/// Its negation.
pub fn no(given: u32) -> i32
    requires { given < MOST_VARIABLES }
    ensures is { result ≡ spec.no given }
    ensures literal { IsTrue (is_literal result) }
{
    negated(yes(given))
}

/// The variable of a literal.
pub fn variable_of(literal: i32) -> u32
    requires { IsTrue (is_literal literal) }
    ensures is { result ≡ variable_of literal }
    ensures few { result ≤ MOST_VARIABLES }
{
    literal.unsigned_abs()
}
