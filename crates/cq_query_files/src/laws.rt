//! Laws of queries in texts and in files of queries, and of their faults.
ghost use Rattle.std.specs.Prelude.{◌≡◌, ◌⊎◌, ℕ, List};
ghost use Rattle.cql_syntax.specs.Trees.{QueryTree};
ghost use Rattle.cql_syntax.specs.declared.fault.QueryFault.{QueryFault};
ghost use Rattle.cq_query_files.specs.Queries.{IsQuery, IsQueryFault};
ghost use Rattle.cq_query_files.specs.QueryFiles.{HoldsQueries, IsManyFault};
ghost use Rattle.cq_query_files.specs.declared.query_files.ManyFault.{ManyFault};

use cql_parser::{
    faulty_tokens_spell_no_query, texts_spell_a_query_or_have_a_fault,
    tokens_have_at_most_one_fault, tokens_spell_at_most_one_query,
};

/// A law: every text is a query or has a fault, and not both.
pub fn every_text_is_a_query_or_has_a_fault()
    ensures { (text : List ℕ) → (((q : QueryTree) × IsQuery text q) × ((f : QueryFault) → IsQueryFault text f → ⊥))
        ⊎ (((f : QueryFault) × IsQueryFault text f) × ((q : QueryTree) → IsQuery text q → ⊥)) }
{
    texts_spell_a_query_or_have_a_fault();
    tokens_spell_at_most_one_query();
    faulty_tokens_spell_no_query();
}

/// A law: a text spells at most one query, and has at most one fault.
pub fn texts_have_one_outcome()
    ensures query { (text : List ℕ) (q r : QueryTree) → IsQuery text q → IsQuery text r → q ≡ r }
    ensures fault { (text : List ℕ) (f g : QueryFault) → IsQueryFault text f → IsQueryFault text g → f ≡ g }
{
    tokens_have_at_most_one_fault();
    tokens_spell_at_most_one_query();
    faulty_tokens_spell_no_query();
}

/// A law: every file of queries is accepted or has a fault, and not both.
pub fn every_file_of_queries_is_accepted_or_has_a_fault()
    ensures { (text : List ℕ) →
        (((qs : List QueryTree) × HoldsQueries text qs) × ((f : ManyFault) → IsManyFault text f → ⊥))
        ⊎ (((f : ManyFault) × IsManyFault text f) × ((qs : List QueryTree) → HoldsQueries text qs → ⊥)) }
{
    every_text_is_a_query_or_has_a_fault();
}

/// A law: a file of queries is accepted as one list of queries at most, and has at most one fault.
pub fn files_of_queries_have_one_outcome()
    ensures queries { (text : List ℕ) (qs rs : List QueryTree) → HoldsQueries text qs → HoldsQueries text rs → qs ≡ rs }
    ensures fault { (text : List ℕ) (f g : ManyFault) → IsManyFault text f → IsManyFault text g → f ≡ g }
{
    every_text_is_a_query_or_has_a_fault();
    texts_have_one_outcome();
}
