//! A lexeme that no byte continues, or that white space follows.
ghost use Rattle.std.specs.Prelude.{◌≡◌, ◌<◌, ◌≤◌, length, take, IfSome};
ghost use Rattle.pgn_lexer.specs.SingleLexeme.{runs_on};
ghost use Rattle.pgn_cut.specs.Cut.{marks};
ghost use Rattle.pgn_cut.specs.Internal.SettledLexemes.{is_whole, IsSettled, IsSettledLexeme};

use crate::game::marks;
use cq_common::is_white;
use pgn_lexer::{
    LexemeKind, Reading, TokenKind, longest_reading, readings_grow, white_space_is_passed,
    whole_lexemes_stay,
};

/// A lexeme at the start of some bytes: its kind, `marker` (true if it marks a result), and its length in bytes.
/// `taken` is the length with the byte of white space after it, if that is taken with it.
#[derive(Clone, Copy)]
pub(crate) struct SettledLexeme {
    pub(crate) kind: LexemeKind,
    pub(crate) marker: bool,
    pub(crate) len: usize,
    pub(crate) taken: usize,
}

// True if no byte continues a lexeme of a kind.
fn is_whole(kind: LexemeKind) -> bool
    ensures { result ≡ is_whole kind }
{
    matches!(
        kind,
        LexemeKind::Token(
            TokenKind::Open
                | TokenKind::Close
                | TokenKind::Text
                | TokenKind::Period
                | TokenKind::Star
                | TokenKind::LeftParen
                | TokenKind::RightParen
                | TokenKind::Null
                | TokenKind::Comment
        )
    )
}

// True if a lexeme of a kind continues over white space.
fn runs_on(kind: LexemeKind) -> bool
    ensures { result ≡ runs_on kind }
{
    matches!(
        kind,
        LexemeKind::EscapeLine
            | LexemeKind::Token(
                TokenKind::LineComment | TokenKind::UnclosedComment | TokenKind::UnclosedText
            )
    )
}

// The reading at the start of some bytes with the white space after it, if it ends there whatever follows.
fn settled(bytes: &[u8], reading: Reading) -> Option<SettledLexeme>
    requires some { 0 < reading.len }
    requires within { reading.len ≤ length bytes.now }
    ensures kind { IfSome result (λ f. f.kind ≡ reading.kind) }
    ensures len { IfSome result (λ f. f.len ≡ reading.len) }
    ensures marker { IfSome result (λ f. f.marker ≡ marks reading.kind (take reading.len bytes.now)) }
    ensures taken { IfSome result (λ f. IsSettled bytes.now reading f.taken) }
{
    let text = &bytes[..reading.len];
    let marker = marks(reading.kind, text);
    if reading.len < bytes.len() && is_white(bytes[reading.len]) && !runs_on(reading.kind) {
        return Some(SettledLexeme {
            kind: reading.kind,
            marker,
            len: reading.len,
            taken: reading.len + 1,
        });
    }
    if is_whole(reading.kind) {
        return Some(SettledLexeme {
            kind: reading.kind,
            marker,
            len: reading.len,
            taken: reading.len,
        });
    }
    None
}

/// Returns the lexeme at the start of some bytes, if it ends there whatever follows them. `first` is true if it is in
/// the first column.
pub(crate) fn settled_lexeme(first: bool, bytes: &[u8]) -> Option<SettledLexeme>
    requires { 0 < length bytes.now }
    ensures some { IfSome result (λ f. (0 < f.taken) × (f.len ≤ f.taken)) }
    ensures within { IfSome result (λ f. f.taken ≤ length bytes.now) }
    ensures found { IfSome result (λ f. IsSettledLexeme first (take f.taken bytes.now) f) }
{
    readings_grow();
    whole_lexemes_stay();
    white_space_is_passed();
    if is_white(bytes[0]) {
        return None;
    }
    let reading = longest_reading(bytes[0], &bytes[1..], first);
    settled(bytes, reading)
}
