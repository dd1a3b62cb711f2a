ghost use Rattle.std.specs.Prelude.{length, MatchOption};
ghost use Rattle.psl_parser.specs.Limits.{NonePasses, IsFirstPassed};

use crate::limit::Passed;
use crate::state::State;
use psl_lexer::Token;

/// The first token of a text that passes a limit of its statement, if there is one. A bracket that opens a level too
/// many is named for its level, also where it is the first token too many. It takes no memory, and reads each token
/// once.
pub fn first_passed(tokens: &[Token]) -> Option<Passed>
    ensures { MatchOption result (NonePasses tokens.now (length tokens.now)) (IsFirstPassed tokens.now) }
{
    let mut state = State::Outside;
    for (index, token) in tokens.iter().enumerate() {
        match state.step(token) {
            Ok(next) => state = next,
            Err(limit) => {
                return Some(Passed {
                    token: index,
                    limit,
                });
            }
        }
    }
    None
}
