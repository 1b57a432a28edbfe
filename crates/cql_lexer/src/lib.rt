//! The tokens of a query text, or its first lexical fault.
#![tactic(auto)]

mod characters;
mod designators;
mod expected;
mod lexeme;
mod tokens;

pub use tokens::{QUERY_LIMIT, query_tokens, tokens_are_read, tokens_end_once};
