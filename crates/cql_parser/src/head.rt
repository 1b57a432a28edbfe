//! The head of a query.
ghost use Rattle.std.specs.Prelude.{◌≡◌, IfOk, OnOk};
ghost use Rattle.cql_parser.specs.PartialFilters.{no_opening, add_token, add_word, add_text};
ghost use Rattle.cql_parser.specs.Internal.Models.{head_model};

use cq_common::{Bytes, NoMemory};
use cql_syntax::{QueryToken, QueryTokenKind, Word, word_of};
use std::alloc::Global;

/// The parameters so far, and the byte of a `matchstring` whose text is due.
#[derive(Drop)]
pub struct Head {
    pub variations: bool,
    pub match_at: u32,
    pub match_text: Bytes,
    pub pending: Option<u32>,
}

impl Head {
    /// Returns a head without parameters.
    ///
    /// # Errors
    ///
    /// Returns `NoMemory` if memory runs out.
    pub fn new(alloc: Global) -> Result<Head, NoMemory>
        ensures { IfOk result (λ h. head_model h ≡ no_opening) }
    {
        Ok(Head {
            variations: false,
            match_at: 0,
            match_text: Bytes::from_slice(alloc, b"CQL".as_slice())?,
            pending: None,
        })
    }

    // Adds a word.
    fn add_word(&mut self, at: u32, word: Option<Word>)
        ensures { head_model self.new ≡ add_word (head_model self.old) at word }
    {
        match word {
            Some(Word::Variations) => self.variations = true,
            Some(Word::MatchString) => self.pending = Some(at),
            _ => {}
        }
    }

    // Adds a text.
    fn add_text(&mut self, alloc: Global, text: &[u8]) -> Result<(), NoMemory>
        ensures { OnOk result (head_model self.new ≡ add_text (head_model self.old) text.now (head_model self.old).pending) }
    {
        if let Some(at) = self.pending {
            self.match_text = Bytes::from_slice(alloc, text)?;
            self.match_at = at;
            self.pending = None;
        }
        Ok(())
    }

    /// Adds a token.
    ///
    /// # Errors
    ///
    /// Returns `NoMemory` if memory runs out.
    pub fn add_token(&mut self, alloc: Global, token: &QueryToken) -> Result<(), NoMemory>
        ensures { OnOk result (head_model self.new ≡ add_token (head_model self.old) token.now token.now.kind) }
    {
        match &token.kind {
            QueryTokenKind::Word(number) => self.add_word(token.at, word_of(*number)),
            QueryTokenKind::Text(text) => self.add_text(alloc, text.as_slice())?,
            _ => {}
        }
        Ok(())
    }
}
