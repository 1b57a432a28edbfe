//! The text of a game while it is written.
ghost use Rattle.std.specs.Prelude.{◌≡◌, ◌<◌, ◌++◌, length, OnOk, codes};
ghost use Rattle.pgn_export.specs.Internal.Page.{after_lines, with_word, with_longer_word, with_last_in_new_line};

use cq_common::NoMemory;
use std::marker::Model;

/// The largest number of bytes of a line, unless it is a single longer word.
const WIDTH: usize = 79;

/// The text of a game so far: whole lines, and then words, in lines that are filled greedily.
///
/// Each word has a byte of its own before it, a space or LF. The last line has no LF yet.
#[derive(Drop)]
pub(crate) struct Page {
    text: Vec<u8>,
    column: usize,
    gap: usize,
}

impl Model for Page {
    ghost use Rattle.std.specs.Prelude.{◌<◌, length};
    ghost use Rattle.pgn_export.specs.Internal.Page.{Page};

    ghost Value = { Page };

    ghost view = { λ p. record { text = p.text.items; column = p.column; gap = p.gap } };

    ghost invariant = { λ p. p.gap < length p.text.items };
}

impl Page {
    /// Returns a page of complete lines, at least one.
    pub(crate) fn new(lines: Vec<u8>) -> Page
        requires { 0 < length lines.items }
        ensures { result ≡ after_lines lines.items }
    {
        Page {
            text: lines,
            column: WIDTH,
            gap: 0,
        }
    }

    /// Returns the whole text.
    pub(crate) fn as_slice(&self) -> &[u8]
        ensures { result.now ≡ self.now.text }
    {
        self.text.as_slice()
    }

    /// Adds a word, after a space if its line has room for both, else in a new line.
    #[tactic(auto, unfolding(crate::specs::Internal::Page::with_word))]
    pub(crate) fn push(&mut self, word: &[u8]) -> Result<(), NoMemory>
        ensures { OnOk result (self.new ≡ with_word self.old word.now) }
    {
        let gap = self.text.len();
        let fits = self.column < WIDTH && word.len() < WIDTH - self.column;
        self.text.push(if fits { b' ' } else { b'\n' })?;
        self.gap = gap;
        self.text.extend_from_slice(word)?;
        self.column = if fits {
            self.column + 1 + word.len()
        } else {
            word.len()
        };
        Ok(())
    }

    /// Adds a word of three parts.
    #[tactic(auto, using(crate::proofs::Pages::third_part, crate::proofs::Pages::no_third_part))]
    pub(crate) fn push_joined(
        &mut self,
        first: &[u8],
        second: &[u8],
        third: &[u8],
    ) -> Result<(), NoMemory>
        ensures { OnOk result (self.new ≡ with_word self.old (first.now ++ (second.now ++ third.now))) }
    {
        self.push_pair(first, second)?;
        if third.is_empty() {
            return Ok(());
        }
        self.extend_last(third)
    }

    // Adds a word of two parts. Most words have no first part.
    #[tactic(auto, using(crate::proofs::Pages::second_part, crate::proofs::Pages::no_first_part))]
    fn push_pair(&mut self, first: &[u8], second: &[u8]) -> Result<(), NoMemory>
        ensures { OnOk result (self.new ≡ with_word self.old (first.now ++ second.now)) }
    {
        if first.is_empty() {
            return self.push(second);
        }
        self.push(first)?;
        self.extend_last(second)
    }

    /// Adds bytes at the end of the last word.
    #[tactic(auto, unfolding(crate::specs::Internal::Page::with_longer_word))]
    pub(crate) fn extend_last(&mut self, more: &[u8]) -> Result<(), NoMemory>
        ensures { OnOk result (self.new ≡ with_longer_word self.old more.now) }
    {
        let fits = self.column <= WIDTH && more.len() <= WIDTH - self.column;
        self.text.extend_from_slice(more)?;
        if fits {
            self.column += more.len();
        } else {
            self.break_line();
        }
        Ok(())
    }

    // Moves the last word to a new line.
    fn break_line(&mut self)
        ensures { self.new ≡ with_last_in_new_line self.old }
    {
        self.text[self.gap] = b'\n';
        self.column = self.text.len() - self.gap - 1;
    }

    /// Ends the last line, and adds an empty one.
    pub(crate) fn end(&mut self) -> Result<(), NoMemory>
        ensures { OnOk result (self.new.text ≡ self.old.text ++ codes "\n\n") }
    {
        self.text.extend_from_slice(b"\n\n")?;
        Ok(())
    }
}
