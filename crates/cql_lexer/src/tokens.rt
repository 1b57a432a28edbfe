//! The tokens of a query text.
ghost use Rattle.std.specs.Prelude.{◌≡◌, ◌<◌, ◌≤◌, ◌+◌, length, drop, IfOk, OnOk};
ghost use Rattle.std.specs.Prelude.{◌++◌, ◌∷◌, ◌↔◌, [], ℕ, List, Result};
ghost use Rattle.cql_syntax.specs.Limits.{most_bytes};
ghost use Rattle.cql_syntax.specs.declared.fault.QueryFault.{QueryFault};
ghost use Rattle.cql_syntax.specs.declared.token.QueryToken.{QueryToken};
ghost use Rattle.cq_common.specs.Refusals.{Gives};
ghost use Rattle.cql_lexer.specs.Tokens.{separator_len, token_at, tokens_of, EndOnce, Tokenizes};

use crate::characters::find;
use crate::expected::{Expected, expected_after};
use crate::lexeme::{Lexeme, first_lexeme};
use cq_common::{NoMemory, Refusal, white_len};
use cql_syntax::{QueryFault, QueryReason, QueryToken, QueryTokenKind};
use std::alloc::Global;

/// The greatest number of bytes of a query.
pub const QUERY_LIMIT: usize = 65_536;

// The number of bytes at the front that only separate tokens.
#[tactic(auto, unfolding(crate::specs::Tokens::separator_len))]
fn separator_len(text: &[u8]) -> usize
    ensures value { result ≡ separator_len text.now }
    ensures fits { result ≤ length text.now }
{
    if text.starts_with(b"//".as_slice()) {
        return find(b'\n', text).unwrap_or(text.len());
    }
    white_len(text)
}

// The token at a place of the query, or the fault there.
fn token_at(
    alloc: Global,
    expected: Expected,
    query: &[u8],
    at: usize,
) -> Result<(QueryToken, usize), Refusal<QueryFault>>
    requires within { at < length query.now }
    requires limit { length query.now ≤ most_bytes }
    ensures value { Gives (λ found. found) result (token_at expected at (drop at query.now)) }
    ensures front { IfOk result (λ found. (0 < found.1) × (at + found.1 ≤ length query.now)) }
{
    let byte = at as u32;
    match first_lexeme(alloc, expected, &query[at..]) {
        Ok(Lexeme { kind, len }) => Ok((QueryToken { at: byte, kind }, len)),
        Err(Refusal::Fault(reason)) => Err(Refusal::Fault(QueryFault { byte, reason })),
        Err(Refusal::NoMemory) => Err(Refusal::NoMemory),
    }
}

// Adds a token at the end.
fn push(tokens: &mut Vec<QueryToken>, token: QueryToken) -> Result<(), NoMemory>
    ensures { OnOk result (tokens.new.items ≡ tokens.old.items ++ token ∷ []) }
{
    tokens.push(token)?;
    Ok(())
}

/// Returns the tokens of a query. The last one is an end at the number of the query's bytes. The numbers of the
/// tokens are in range, and each designator has men, squares and the right flags.
///
/// # Errors
///
/// Returns a `Refusal::Fault` with the first lexical fault. It is `QueryTooLong` at byte 65,536 if the query has
/// more bytes. Otherwise it is the first bad byte, unclosed text or number too large. Returns `Refusal::NoMemory`
/// if memory runs out.
pub fn query_tokens(alloc: Global, query: &[u8]) -> Result<Vec<QueryToken>, Refusal<QueryFault>>
    ensures value { Gives (λ tokens. tokens.items) result (tokens_of query.now) }
    ensures proper { IfOk result (λ tokens. EndOnce (length query.now) tokens.items) }
{
    if query.len() > QUERY_LIMIT {
        return Err(Refusal::Fault(QueryFault {
            byte: QUERY_LIMIT as u32,
            reason: QueryReason::QueryTooLong,
        }));
    }
    let mut tokens = Vec::new(alloc);
    let mut expected = Expected::Token;
    let mut at = 0;
    while at < query.len() {
        let separator = separator_len(&query[at..]);
        if separator > 0 {
            at += separator;
        } else {
            let (token, len) = token_at(alloc, expected, query, at)?;
            expected = expected_after(&token.kind);
            push(&mut tokens, token)?;
            at += len;
        }
    }
    let end = QueryToken {
        at: at as u32,
        kind: QueryTokenKind::End,
    };
    push(&mut tokens, end)?;
    Ok(tokens)
}

/// A law: the tokens of a query are proper ones, and then one end at the number of the query's bytes. Proper tokens
/// have their numbers in range, and their designators have men, squares and the right flags.
#[tactic(auto, using(crate::proofs::Ends::tokens_end))]
pub fn tokens_end_once()
    ensures { (query : List ℕ) (tokens : List QueryToken) → tokens_of query ≡ Ok tokens → EndOnce (length query) tokens }
{}

/// A law: a query of at most 65,536 bytes is read in one way. Separators are skipped. Elsewhere the first lexeme is a
/// token, and the bytes after it are read next.
#[tactic(auto, using(crate::proofs::ReadOnce::reads_tokens))]
pub fn tokens_are_read()
    ensures { (query : List ℕ) (read : Result (List QueryToken) QueryFault) → length query ≤ most_bytes →
        Tokenizes 0 Expected.Token query read ↔ (tokens_of query ≡ read) }
{}
