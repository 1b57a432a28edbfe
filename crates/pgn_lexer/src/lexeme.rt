//! The lexemes of a text, one after the other.
ghost use Rattle.std.specs.Prelude.{◌≡◌, ◌+◌, ◌<◌, ◌≤◌, ℕ, [], ◌∷◌, take, drop, length, IfNone, IfSome};
ghost use Rattle.pgn_lexer.specs.Lexemes.{first_at, lexemes_at};
ghost use Rattle.pgn_lexer.specs.PlacedLexemes.{placed_lexeme};

use crate::reading::longest_reading;
use crate::token::LexemeKind;
use cq_common::white_len;

/// A lexeme of some bytes: its place among them, `first` (true if it begins in the first column), its bytes and its
/// kind.
#[derive(Clone, Copy, Debug)]
pub struct Lexeme<'a> {
    pub at: usize,
    pub first: bool,
    pub text: &'a [u8],
    pub kind: LexemeKind,
}

// True if the byte at a place is in the first column; `first` is the value for the first byte.
#[inline]
fn in_first_column(bytes: &[u8], at: usize, first: bool) -> bool
    requires { at ≤ length bytes.now }
    ensures { result ≡ first_at first bytes.now at }
{
    if at == 0 {
        first
    } else {
        bytes[at - 1] == b'\n'
    }
}

/// Returns the next lexeme from a place on, which no lexeme crosses. `first` is true if the first of all bytes is in
/// the first column. None if white space alone is left.
#[inline]
pub fn next_lexeme(bytes: &[u8], at: usize, first: bool) -> Option<Lexeme<'_>>
    requires { at ≤ length bytes.now }
    ensures none { IfNone result ((start : ℕ) → lexemes_at start first bytes.now at ≡ []) }
    ensures next { IfSome result (λ l. (start : ℕ) →
        lexemes_at start first bytes.now at ≡ placed_lexeme start l ∷ lexemes_at start first bytes.now (l.at + length l.text.now)) }
    ensures text { IfSome result (λ l. l.text.now ≡ take (length l.text.now) (drop l.at bytes.now)) }
    ensures within { IfSome result (λ l. (at ≤ l.at) × (0 < length l.text.now) × (l.at + length l.text.now ≤ length bytes.now)) }
{
    let at = at + white_len(&bytes[at..]);
    if at == bytes.len() {
        return None;
    }
    let rest = &bytes[at..];
    let first = in_first_column(bytes, at, first);
    let reading = longest_reading(rest[0], &rest[1..], first);
    Some(Lexeme {
        at,
        first,
        text: &rest[..reading.len],
        kind: reading.kind,
    })
}
