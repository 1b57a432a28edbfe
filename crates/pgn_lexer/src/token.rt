//! The tokens and lexemes of a text, by their kinds.

/// The kind of a token: the kinds of the PGN standard, comments, and three kinds of faulty token.
#[derive(Clone, Copy, Debug, PartialEq, Eq)]
pub enum TokenKind {
    /// `[`, which opens a tag pair.
    Open,
    /// `]`, which closes one.
    Close,
    /// A string from its quote to its quote.
    Text,
    /// A letter or digit with the letters, digits and `_ + # = : - /` after it.
    Symbol,
    /// `.`
    Period,
    /// `*`, the marker of a game without result.
    Star,
    /// `(`
    LeftParen,
    /// `)`
    RightParen,
    /// `$` and digits, or a suffix such as `!?`: the number, every one above 255 as 256.
    Nag(u32),
    /// `--`, the null move.
    Null,
    /// A comment from `{` to the next `}`.
    Comment,
    /// A comment from `;` to the line's end.
    LineComment,
    /// A byte that begins no token.
    BadByte,
    /// A comment without its `}`: all the rest.
    UnclosedComment,
    /// A string that a line's end, or the end of the bytes, cuts short.
    UnclosedText,
}

/// A token: the place of its first byte, counted from the archive's first, its length in bytes, and its kind.
#[derive(Clone, Copy, Debug, PartialEq, Eq)]
pub struct Token {
    pub at: u64,
    pub len: u32,
    pub kind: TokenKind,
}

/// The kind of the longest reading at a place: a token, or a line that is skipped.
#[derive(Clone, Copy, Debug, PartialEq, Eq)]
pub enum LexemeKind {
    /// `%` in the first column, to the line's end.
    EscapeLine,
    /// A token of this kind.
    Token(TokenKind),
}

/// The longest reading at the front of some bytes: its kind, and its length in bytes.
#[derive(Clone, Copy, Debug, PartialEq, Eq)]
pub struct Reading {
    pub kind: LexemeKind,
    pub len: usize,
}
