//! The comments of a node.
ghost use Rattle.std.specs.Prelude.{◌≡◌, ◌<◌, [], ◌++◌, length, slice_index_or, All, IfOk, OnOk, OnErr};
ghost use Rattle.cq_position.specs.Comments.{words, comment_of};
ghost use Rattle.cq_position.specs.Games.{IsComment};
ghost use Rattle.pgn_tree.specs.Internal.Comments.{start_of};
ghost use Rattle.pgn_tree.specs.Words.{without_braces};

use crate::comment_words::push_words;
use cq_common::NoMemory;
use std::alloc::Global;
use std::marker::Model;

/// Comments, one after the other in one text, and the end of each. No comments take no memory.
#[derive(Drop)]
pub struct Comments {
    text: Vec<u8>,
    ends: Vec<usize>,
}

impl Model for Comments {
    ghost use Rattle.std.specs.Prelude.{ℕ, List};

    ghost Value = { List (List ℕ) };

    ghost use Rattle.pgn_tree.specs.Internal.Comments.{comments_inside, AreComments};

    ghost view = { comments_inside };

    ghost invariant = { λ c. AreComments c.ends.items c.text.items };
}

impl Comments {
    /// Returns no comments.
    pub fn new(alloc: Global) -> Comments
        ensures { result ≡ [] }
    {
        Comments {
            text: Vec::new(alloc),
            ends: Vec::new(alloc),
        }
    }

    /// Returns the number of comments.
    pub fn len(&self) -> usize
        ensures len { result ≡ length self.now }
        ensures kept { All IsComment self.now }
    {
        self.ends.len()
    }

    /// Returns comment number `i`, counted from 0.
    pub fn get(&self, i: usize) -> &[u8]
        requires { i < length self.now }
        ensures { result.now ≡ slice_index_or self.now i [] }
    {
        let start = start_of(self.ends.as_slice(), i);
        &self.text[start..self.ends[i]]
    }

    /// Adds the comment of a text, if it has a word.
    ///
    /// # Errors
    ///
    /// Fails only if out of memory, and then changes nothing.
    pub fn add(&mut self, text: &[u8]) -> Result<(), NoMemory>
        ensures ok { OnOk result (self.new ≡ self.old ++ comment_of (words (without_braces text.now))) }
        ensures err { OnErr result (self.new ≡ self.old) }
    {
        let end = self.text.len();
        if push_words(&mut self.text, text).is_err() {
            self.text.truncate(end);
            return Err(NoMemory);
        }
        if self.text.len() == end {
            return Ok(());
        }
        if self.ends.push(self.text.len()).is_err() {
            self.text.truncate(end);
            return Err(NoMemory);
        }
        Ok(())
    }

    /// Returns a copy.
    ///
    /// # Errors
    ///
    /// Fails only if out of memory.
    pub fn copy(&self, alloc: Global) -> Result<Comments, NoMemory>
        ensures { IfOk result (λ c. c ≡ self.now) }
    {
        Ok(Comments {
            text: Vec::from_slice(alloc, self.text.as_slice())?,
            ends: Vec::from_slice(alloc, self.ends.as_slice())?,
        })
    }
}

// The beginning of comment number `i`: the end of the one before it.
fn start_of(ends: &[usize], i: usize) -> usize
    requires { i < length ends.now }
    ensures { result ≡ start_of 0 ends.now i }
{
    if i == 0 { 0 } else { ends[i - 1] }
}
