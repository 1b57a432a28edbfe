//! The grammar of queries: the query that a list of tokens spells.
#![tactic(auto)]

mod head;
mod infix;
mod laws;
mod open_rule;
mod parser;
mod parsing;
mod partial_filter;
mod production;
mod role;
mod rule_state;
mod stack;

pub use laws::{
    faulty_tokens_spell_no_query, spelled_queries_have_no_any, texts_spell_a_query_or_have_a_fault,
    tokens_have_at_most_one_fault, tokens_of_a_text_are_ended,
    tokens_spell_a_query_or_have_a_fault, tokens_spell_at_most_one_query,
};
pub use parsing::parse;
pub use stack::DEPTH_LIMIT;
