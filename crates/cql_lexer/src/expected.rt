//! The tokens that may follow a token.
ghost use Rattle.std.specs.Prelude.{◌≡◌};
ghost use Rattle.cql_lexer.specs.Tokens.{expected_after};

use cql_syntax::{QueryTokenKind, Word, word_of};

/// The tokens that may directly follow a token, besides those that may occur anywhere.
#[derive(Clone, Copy, Debug, PartialEq, Eq)]
pub enum Expected {
    /// No others: only a token that may occur anywhere.
    Token,
    /// The name of a file, after `input` and `output`.
    FileName,
    /// A result, after `result`.
    Outcome,
}

/// Returns the tokens that may directly follow a token.
pub fn expected_after(kind: &QueryTokenKind) -> Expected
    ensures { result ≡ expected_after kind.now }
{
    match kind {
        QueryTokenKind::Word(number) => match word_of(*number) {
            Some(Word::Input | Word::Output) => Expected::FileName,
            Some(Word::Result) => Expected::Outcome,
            _ => Expected::Token,
        },
        _ => Expected::Token,
    }
}
