//! The faults of a text that is no game.

use cq_common::Shared;

/// The first fault of a game: the place of its byte, counted from the archive's first byte, and its reason.
#[derive(Clone, Copy, Debug, PartialEq, Eq)]
pub struct GameFault {
    pub byte: u64,
    pub reason: Reason,
}

impl Shared for GameFault {}

/// The reason of a fault at a token of a game, or at its end.
#[derive(Clone, Copy, Debug, PartialEq, Eq)]
pub enum Reason {
    /// A byte that begins no token; also `$` without digits.
    BadByte,
    /// A comment without its `}`.
    UnclosedComment,
    /// A string that a line's end, or the end of the bytes, cuts short.
    UnclosedString,
    /// A token other than the next one of a tag pair; `]` or a string outside a pair; `[` in the movetext; the end inside a pair.
    BadTag,
    /// The string of the first tag `FEN`, which is no position.
    BadFen,
    /// A numeric annotation glyph above 255.
    NagRange,
    /// A text that spells no move.
    NotAMove,
    /// A text that no legal move fits.
    IllegalMove,
    /// A text that two or more legal moves fit.
    AmbiguousMove,
    /// `(` with no move before it in its line.
    VariationWithoutMove,
    /// `)` of a variation that has no move.
    EmptyVariation,
    /// `)` outside variations.
    UnopenedVariation,
    /// The end inside a variation.
    UnclosedVariation,
    /// `(` that would open the 101st level.
    TooDeep,
    /// A move that would make the 65,537th position.
    TooManyPositions,
    /// The first byte after the first 2^24 of a longer game.
    GameTooLong,
}
