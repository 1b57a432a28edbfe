//! The tokens of a game.
ghost use Rattle.std.specs.Prelude.{◌≡◌, ◌<◌, ◌≤◌, ◌^◌, length, All, IfOk};
ghost use Rattle.pgn_lexer.specs.Lexemes.{tokens_of};
ghost use Rattle.pgn_lexer.specs.Texts.{IsTokenOf, AreTokensInOrder};

use crate::laws::tokens_stand_apart;
use crate::lexeme::next_lexeme;
use crate::token::{LexemeKind, Token};
use cq_common::NoMemory;
use std::alloc::Global;

/// Returns the tokens of a text of at most 2^24 bytes; escape lines give none. `start` is the place of its first byte
/// in the archive, from which the tokens' places count. `first` is true if that byte is in the first column.
///
/// # Errors
///
/// Fails only if out of memory.
pub fn tokens(alloc: Global, bytes: &[u8], start: u64, first: bool) -> Result<Vec<Token>, NoMemory>
    requires size { length bytes.now ≤ 2 ^ 24 }
    requires place { start < 2 ^ 62 }
    ensures value { IfOk result (λ v. v.items ≡ tokens_of start first bytes.now) }
    ensures order { IfOk result (λ v. AreTokensInOrder start v.items) }
    ensures each { IfOk result (λ v. All (IsTokenOf start bytes.now) v.items) }
{
    let mut tokens = Vec::new(alloc);
    let mut at = 0;
    while let Some(lexeme) = next_lexeme(bytes, at, first) {
        if let LexemeKind::Token(kind) = lexeme.kind {
            tokens.push(Token {
                at: start + lexeme.at as u64,
                len: lexeme.text.len() as u32,
                kind,
            })?;
        }
        at = lexeme.at + lexeme.text.len();
    }
    tokens_stand_apart();
    Ok(tokens)
}
