//! Tag pairs, each in one step.
ghost use Rattle.std.specs.Prelude.{◌≡◌, ◌+◌, ◌-◌, ◌<◌, ◌≤◌, length, take, drop, slice_index, IfSome};
ghost use Rattle.pgn_lexer.specs.Bytes.{ends_line, left_bracket};
ghost use Rattle.pgn_lexer.specs.declared.token.LexemeKind.{LexemeKind as AKind};
ghost use Rattle.pgn_lexer.specs.declared.token.LexemeKind.TheVariants.{Token};
ghost use Rattle.pgn_lexer.specs.declared.token.TokenKind.TheVariants.{Close, Text};
ghost use Rattle.pgn_cut.specs.Internal.SettledLexemes.{IsSettledLexeme};
ghost use Rattle.pgn_cut.specs.Internal.PairRuns.{IsSettledAs, IsPair};

use crate::settled_lexeme::{SettledLexeme, settled_lexeme};
use crate::word_runs::words_len;
use pgn_lexer::{LexemeKind, TokenKind};

// The lexeme at a place of some bytes after their first, if it ends there whatever follows.
fn lexeme_at(bytes: &[u8], at: usize) -> Option<SettledLexeme>
    requires { (0 < at) × (at ≤ length bytes.now) }
    ensures some { IfSome result (λ f. (0 < f.taken) × (at + f.taken ≤ length bytes.now)) }
    ensures found { IfSome result (λ f. IsSettledLexeme (ends_line (slice_index bytes.now (at - 1))) (take f.taken (drop at bytes.now)) f) }
{
    let rest = &bytes[at..];
    if rest.is_empty() {
        return None;
    }
    settled_lexeme(bytes[at - 1] == b'\n', rest)
}

// The length in bytes of a string from a place on, with the white space after it.
fn text_len(bytes: &[u8], at: usize) -> Option<usize>
    requires { (0 < at) × (at ≤ length bytes.now) }
    ensures some { IfSome result (λ n. (0 < n) × (at + n ≤ length bytes.now)) }
    ensures found { IfSome result (λ n. IsSettledAs (Token Text) (ends_line (slice_index bytes.now (at - 1))) (take n (drop at bytes.now))) }
{
    let found = lexeme_at(bytes, at)?;
    match found.kind {
        LexemeKind::Token(TokenKind::Text) => Some(found.taken),
        _ => None,
    }
}

// The length in bytes of a closing bracket from a place on, with the white space after it.
fn closing_len(bytes: &[u8], at: usize) -> Option<usize>
    requires { (0 < at) × (at ≤ length bytes.now) }
    ensures some { IfSome result (λ n. (0 < n) × (at + n ≤ length bytes.now)) }
    ensures found { IfSome result (λ n. IsSettledAs (Token Close) (ends_line (slice_index bytes.now (at - 1))) (take n (drop at bytes.now))) }
{
    let found = lexeme_at(bytes, at)?;
    match found.kind {
        LexemeKind::Token(TokenKind::Close) => Some(found.taken),
        _ => None,
    }
}

/// Returns the length of the tag pair at the start of some bytes, which begin with a bracket. None if they are no tag
/// pair with a name.
pub(crate) fn pair_len(bytes: &[u8]) -> Option<usize>
    requires some { 0 < length bytes.now }
    requires bracket { slice_index bytes.now 0 ≡ left_bracket }
    ensures within { IfSome result (λ n. n ≤ length bytes.now) }
    ensures pair { IfSome result (λ n. IsPair (take n bytes.now)) }
{
    let name = words_len(&bytes[1..]);
    if name == 0 {
        return None;
    }
    let text = text_len(bytes, 1 + name)?;
    let closing = closing_len(bytes, 1 + name + text)?;
    Some(1 + name + text + closing)
}
