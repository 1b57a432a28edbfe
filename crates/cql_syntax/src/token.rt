//! The tokens of a query text.

use crate::leaves::{Designator, Outcome};
use cq_common::{Bytes, Shared};

/// A token, and its place.
#[derive(Drop, PartialEq, Eq)]
pub struct QueryToken {
    /// The place of its first byte in the query, from 0. The end has the number of bytes.
    pub at: u32,
    pub kind: QueryTokenKind,
}

impl Shared for QueryToken {}

/// The kind of a token, with its value.
#[derive(Drop, PartialEq, Eq)]
pub enum QueryTokenKind {
    /// A word of the language, by its number in the list of the words, from 0.
    Word(u16),
    /// A reserved name. It is no word of this language, and a query may not use it.
    Reserved(Bytes),
    /// Any other name.
    Name(Bytes),
    /// Men, squares, or men on squares.
    Squares(Designator),
    /// A number, at most 999,999,999.
    Number(u32),
    /// The text between two quotes.
    Text(Bytes),
    /// The name of a file after `input` or `output`.
    FileName(Bytes),
    /// A result of a game after `result`.
    Outcome(Outcome),
    /// A mark, by its number, from 0, in the list `-->`, `<--`, `<=`, `>=`, `==`, `<`, `>`, `+`, `-`, `*`, `?`, `#`,
    /// `|`, `&`, `~`, `(`, `)`, `{`, `}`, `,`.
    Mark(u8),
    /// The end of the query.
    End,
}
