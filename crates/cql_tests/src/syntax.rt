//! A law that nothing else calls, and trees that threads may share, by their type.
use cq_symmetry::{Family, Mapping, SquarePart};
use cql_lexer::tokens_are_read;
use cql_syntax::{Constituents, Filters, Terms};

fn is_shared<T: Send + Sync>() {}

#[test]
fn threads_may_share_trees() {
    tokens_are_read();
    is_shared::<Filters>();
    is_shared::<Terms>();
    is_shared::<Constituents>();
    is_shared::<SquarePart>();
    is_shared::<Mapping>();
    is_shared::<Family>();
}
