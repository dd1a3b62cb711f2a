ghost use Rattle.std.specs.Prelude.{◌<◌, ◌≡◌, ◌^◌, IfErr, IfOk, IfSome};
ghost use Rattle.psl_parser.specs.Parsing.{IsParsed, IsParseFault};
ghost use Rattle.psl_parser.specs.Parsing as parsing;

use crate::ParseFault;
use crate::fault::Fault;
use crate::limit::{Limit, Passed};
use crate::parser::Parser;
use crate::scan::first_passed;
use psl_grammar::UnitTree;
use psl_lexer::Tokens;
use std::alloc::Global;

/// How many of so many tokens are left behind the one that passes a limit; all, where none does.
fn limit_of(count: usize, passed: Option<Passed>) -> usize
    requires { IfSome passed (λ first. first.token < count) }
    ensures { result ≡ parsing.limit_of count passed }
{
    match passed {
        Some(first) => count - 1 - first.token,
        None => count,
    }
}

/// The fault of a token that passes a limit.
fn passed_fault(passed: Passed) -> ParseFault
    requires { passed.token < 2 ^ 32 }
    ensures { result ≡ parsing.limit_fault passed.limit passed.token }
{
    let token = passed.token as u32;
    match passed.limit {
        Limit::Nesting => ParseFault::NestedTooDeep { token },
        Limit::Length => ParseFault::StatementTooLong { token },
    }
}

/// The tree of a text (IEEE 1850, Annex A, in the profile of this tool).
///
/// The first token with a fault is named where there is one, and of several at one token a syntax fault, then the
/// level, then the length. `NoMemory` may come at any time.
pub fn parse(alloc: Global, tokens: &Tokens) -> Result<UnitTree, ParseFault>
    ensures tree { IfOk result (λ tree. IsParsed tokens.now tree) }
    ensures fault { IfErr result (λ fault. IsParseFault tokens.now fault) }
{
    let tokens = tokens.as_slice();
    let passed = first_passed(tokens);
    let mut parser = Parser {
        rest: tokens,
        limit: limit_of(tokens.len(), passed),
    };
    let result = parser.text(alloc);
    let token = (tokens.len() - parser.rest.len()) as u32;
    match result {
        Ok(tree) => {
            if parser.rest.is_empty() {
                Ok(tree)
            } else {
                Err(ParseFault::Syntax { token })
            }
        }
        Err(fault) => match fault {
            Fault::Syntax => Err(ParseFault::Syntax { token }),
            Fault::Limit => match passed {
                Some(first) => Err(passed_fault(first)),
                None => unreachable!(),
            },
            Fault::NoMemory => Err(ParseFault::NoMemory),
        },
    }
}
