//! The parsing of a query's tokens.
ghost use Rattle.std.specs.Prelude.{◌≡◌, IfOk};
ghost use Rattle.cql_parser.specs.Faults.{IsEnded, Parses};
ghost use Rattle.cql_parser.specs.Internal.ParserStates.{reason_of};

use crate::parser::{Parser, ParserState};
use crate::rule_state::HeadState;
use cq_common::{Bytes, NoMemory, Refusal};
use cql_syntax::{Query, QueryFault, QueryReason, QueryToken, QueryTokenKind};
use std::alloc::Global;

// The reason why no query goes on with a token.
fn reason_at(
    alloc: Global,
    kind: &QueryTokenKind,
    reached: ParserState,
) -> Result<QueryReason, NoMemory>
    ensures { IfOk result (λ reason. reason ≡ reason_of kind.now reached) }
{
    Ok(match kind {
        QueryTokenKind::Reserved(name) => {
            QueryReason::OutsideProfile(Bytes::from_slice(alloc, name.as_slice())?)
        }
        QueryTokenKind::End => QueryReason::UnexpectedEnd,
        _ => match reached {
            ParserState::Deep => QueryReason::TooDeep,
            _ => QueryReason::UnexpectedToken,
        },
    })
}

/// Returns the query that the tokens of a text spell.
///
/// # Errors
///
/// Returns a `Refusal::Fault` at the first token such that no query begins with the tokens up to it. Its byte is the
/// place of that token; for the end it is the length of the text. The reasons are:
///
/// - `OutsideProfile`: a reserved name.
/// - `UnexpectedEnd`: the end of the query, which comes too early.
/// - `TooDeep`: a token that would open a 65th construct, if the grammar alone allows the token.
/// - `UnexpectedToken`: any other token.
///
/// Returns `Refusal::NoMemory` if memory runs out.
pub fn parse(alloc: Global, tokens: &[QueryToken]) -> Result<Query, Refusal<QueryFault>>
    requires { IsEnded tokens.now }
    ensures { Parses tokens.now result }
{
    let mut reader = Parser::new(alloc)?;
    let mut reached = ParserState::Opening(HeadState::Start);
    for token in tokens.iter() {
        reached = reader.feed(alloc, reached, token)?;
        if reached.is_fault() {
            return Err(Refusal::Fault(QueryFault {
                byte: token.at,
                reason: reason_at(alloc, &token.kind, reached)?,
            }));
        }
    }
    Ok(reader.finish())
}
