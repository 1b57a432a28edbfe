//! The faults of a query.

use crate::leaves::Kind;
use cq_common::{Bytes, Shared};

/// The fault of a query, and its place.
#[derive(Drop, Debug, PartialEq, Eq)]
pub struct QueryFault {
    /// A place in the query's bytes, from 0.
    pub byte: u32,
    pub reason: QueryReason,
}

impl Shared for QueryFault {}

/// The reason of a query's fault.
#[derive(Drop, Debug, PartialEq, Eq)]
pub enum QueryReason {
    /// A byte that begins no token.
    BadByte,
    /// A quote without a second one.
    UnclosedText,
    /// A token that no query has at this place.
    UnexpectedToken,
    /// The query ends before it is whole.
    UnexpectedEnd,
    /// A reserved name. It is no word of this language, and a query may not use it.
    OutsideProfile(Bytes),
    /// A filter of the second kind where one of the first kind is required.
    KindMismatch(Kind, Kind),
    /// A name that no `square` around it binds.
    UnknownName(Bytes),
    /// A closing brace in the match string or in the text of a comment.
    TextHoldsBrace,
    /// A number above 999,999,999.
    NumberTooLarge,
    /// More than 64 constructs are open at a place.
    TooDeep,
    /// A line of more than 64 places.
    LineTooLong,
    /// A query of a weight above 2^18 (262,144).
    TooManyMembers,
    /// A query of more than 65,536 bytes.
    QueryTooLong,
    /// A `sort` or `comment` that is no top item.
    NotAtTop,
    /// A fifth sort item.
    TooManySorts,
    /// A fifth nested `square`.
    TooManySquares,
}
