//! The tree of a query: its types, the kind of a filter and the weight of a query. It also has the tokens, words
//! and faults of queries.
#![tactic(auto)]

mod copies;
pub mod extents;
pub mod fault;
pub mod fault_laws;
pub mod flat_laws;
pub mod flat_query;
mod kinds;
pub mod laws;
pub mod leaves;
pub mod token;
pub mod tree;
pub mod typed_query;
mod weights;
pub mod words;

pub use extents::{Extent, LONGEST_PATH, PathLength};
pub use fault::{QueryFault, QueryReason};
pub use flat_query::FlatQuery;
pub use kinds::kind_of;
pub use leaves::{Chain, Designator, Field, Kind, Mark, Of, Outcome, Pair, Plain, Unary, Way};
pub use token::{QueryToken, QueryTokenKind};
pub use tree::{
    Body, Constituent, Constituents, Filter, Filters, Form, Line, Played, Query, Term, Terms,
};
pub use typed_query::TypedQuery;
pub use weights::{WEIGHT_LIMIT, weight};
pub use words::{Sign, Word, is_reserved, mark_number, sign_of, word_number, word_of};
