//! Tokens of texts from outside.
ghost use Rattle.std.specs.Prelude.{◌≤◌, length};

use pgn_lexer::TokenKind::{
    BadByte, Close, Comment, LeftParen, LineComment, Nag, Null, Open, Period, RightParen, Star,
    Symbol, Text, UnclosedComment, UnclosedText,
};
use pgn_lexer::{Token, TokenKind, tokens};
use std::alloc::Global;
use std::test::Fail;

/// A row of the table: a text, and the place, the length and the kind of each of its tokens.
type LexerCase<'a> = (&'a [u8], &'a [(u64, u32, TokenKind)]);

static ROWS: [LexerCase<'static>; 25] = [
    (b"", &[]),
    (b" \t\n\x0b\x0c\r ", &[]),
    (
        b"1. e4 {never closed",
        &[
            (0, 1, Symbol),
            (1, 1, Period),
            (3, 2, Symbol),
            (6, 13, UnclosedComment),
        ],
    ),
    (
        b"1. e4 $256 *",
        &[
            (0, 1, Symbol),
            (1, 1, Period),
            (3, 2, Symbol),
            (6, 4, Nag(256)),
            (11, 1, Star),
        ],
    ),
    (
        b"$0 $007 $255 $99999999999",
        &[
            (0, 2, Nag(0)),
            (3, 4, Nag(7)),
            (8, 4, Nag(255)),
            (13, 12, Nag(256)),
        ],
    ),
    (b"Qh5!?", &[(0, 3, Symbol), (3, 2, Nag(5))]),
    (
        b"! ? !! ?? !? ?!",
        &[
            (0, 1, Nag(1)),
            (2, 1, Nag(2)),
            (4, 2, Nag(3)),
            (7, 2, Nag(4)),
            (10, 2, Nag(5)),
            (13, 2, Nag(6)),
        ],
    ),
    (b"!!?", &[(0, 2, Nag(3)), (2, 1, Nag(2))]),
    (b"$", &[(0, 1, BadByte)]),
    (b"$x", &[(0, 1, BadByte), (1, 1, Symbol)]),
    (b"--", &[(0, 2, Null)]),
    (b"-", &[(0, 1, BadByte)]),
    (b"---", &[(0, 2, Null), (2, 1, BadByte)]),
    (b"1-0x", &[(0, 4, Symbol)]),
    (b"1/2-1/2", &[(0, 7, Symbol)]),
    (
        b"O-O+ e8=Q# a_b:c",
        &[(0, 4, Symbol), (5, 5, Symbol), (11, 5, Symbol)],
    ),
    (b"e4;to the end", &[(0, 2, Symbol), (2, 11, LineComment)]),
    (
        b"e4;to\nthe end",
        &[
            (0, 2, Symbol),
            (2, 3, LineComment),
            (6, 3, Symbol),
            (10, 3, Symbol),
        ],
    ),
    (
        b"%skipped\ne4 %not",
        &[(9, 2, Symbol), (12, 1, BadByte), (13, 3, Symbol)],
    ),
    (b"e4\r\n%skipped\r\ne5", &[(0, 2, Symbol), (14, 2, Symbol)]),
    (
        b"\"over\nit\"",
        &[(0, 5, UnclosedText), (6, 2, Symbol), (8, 1, UnclosedText)],
    ),
    (b"\"a\\\"b\\\\c\\n\"", &[(0, 11, Text)]),
    (
        b"\"a\\\n\"\\",
        &[(0, 3, UnclosedText), (4, 2, UnclosedText)],
    ),
    (
        b"{a;b%c\"}{a{b}c}",
        &[
            (0, 8, Comment),
            (8, 5, Comment),
            (13, 1, Symbol),
            (14, 1, BadByte),
        ],
    ),
    (
        b"[]().*",
        &[
            (0, 1, Open),
            (1, 1, Close),
            (2, 1, LeftParen),
            (3, 1, RightParen),
            (4, 1, Period),
            (5, 1, Star),
        ],
    ),
];

fn is_token(token: &Token, want: Option<&(u64, u32, TokenKind)>) -> bool {
    match want {
        Some((at, len, kind)) => token.at == at.saturating_add(1000)
            && token.len == *len
            && token.kind == *kind,
        None => false,
    }
}

fn are_tokens(found: &[Token], want: &[(u64, u32, TokenKind)]) -> bool {
    for k in 0..found.len() {
        if !is_token(&found[k], want.get(k)) {
            return false;
        }
    }
    found.len() == want.len()
}

// Returns true if a text, whose first byte is byte 1000, has these tokens.
fn has_tokens(alloc: Global, text: &[u8], want: &[(u64, u32, TokenKind)]) -> Result<bool, Fail>
    requires { length text.now ≤ 64 }
{
    Ok(are_tokens(tokens(alloc, text, 1000, true)?.as_slice(), want))
}

fn is_right(alloc: Global, row: &LexerCase<'_>) -> Result<bool, Fail> {
    if row.0.len() > 64 {
        return Ok(false);
    }
    has_tokens(alloc, row.0, row.1)
}

#[test]
fn texts_have_their_tokens(rt: HostRuntime) -> Result<(), Fail> {
    for row in ROWS.iter() {
        assert!(rt; is_right(rt.alloc(), row)?);
    }
    Ok(())
}
