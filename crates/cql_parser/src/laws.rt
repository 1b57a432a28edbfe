//! Laws of the queries that token lists spell, and of their faults.
ghost use Rattle.std.specs.Prelude.{◌≡◌, ◌⊎◌, ℕ, List, Ok, false};
ghost use Rattle.cql_syntax.specs.Limits.{most_open};
ghost use Rattle.cql_syntax.specs.TreeFaults.{has_any};
ghost use Rattle.cql_syntax.specs.Trees.{QueryTree};
ghost use Rattle.cql_syntax.specs.declared.fault.QueryFault.{QueryFault};
ghost use Rattle.cql_syntax.specs.declared.token.QueryToken.{QueryToken};
ghost use Rattle.cql_lexer.specs.Tokens.{tokens_of};
ghost use Rattle.cql_parser.specs.PartialFilters.{Spells};
ghost use Rattle.cql_parser.specs.Texts.{TextSpells, IsTextFault};
ghost use Rattle.cql_parser.specs.Faults.{IsEnded, IsFault};

use cql_lexer::tokens_end_once;

/// A law: a list of tokens spells at most one query.
pub fn tokens_spell_at_most_one_query()
    ensures { (tokens : List QueryToken) (q r : QueryTree) → Spells most_open tokens q → Spells most_open tokens r → q ≡ r }
{}

/// A law: a list of tokens has at most one fault.
pub fn tokens_have_at_most_one_fault()
    ensures { (tokens : List QueryToken) (f g : QueryFault) → IsFault tokens f → IsFault tokens g → f ≡ g }
{}

/// A law: tokens that have a fault spell no query.
pub fn faulty_tokens_spell_no_query()
    ensures { (tokens : List QueryToken) (f : QueryFault) (q : QueryTree) → IsFault tokens f → Spells most_open tokens q → ⊥ }
{}

/// A law: no filter of a query that tokens spell is an `Any`, which no text has.
pub fn spelled_queries_have_no_any()
    ensures { (tokens : List QueryToken) (q : QueryTree) → Spells most_open tokens q → has_any q ≡ false }
{}

/// A law: the last of the tokens of a text is the end.
pub fn tokens_of_a_text_are_ended()
    ensures { (text : List ℕ) (tokens : List QueryToken) → tokens_of text ≡ Ok tokens → IsEnded tokens }
{
    tokens_end_once();
}

/// A law: tokens of which the last is the end spell a query, or have a fault.
pub fn tokens_spell_a_query_or_have_a_fault()
    ensures { (tokens : List QueryToken) → IsEnded tokens
        → ((q : QueryTree) × Spells most_open tokens q) ⊎ ((f : QueryFault) × IsFault tokens f) }
{}

/// A law: every text spells a query or has a fault, of its characters or of its tokens.
pub fn texts_spell_a_query_or_have_a_fault()
    ensures { (text : List ℕ) → ((q : QueryTree) × TextSpells text q) ⊎ ((f : QueryFault) × IsTextFault text f) }
{
    tokens_of_a_text_are_ended();
}
