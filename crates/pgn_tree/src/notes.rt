//! The numeric annotation glyphs and the comments of a node.
ghost use Rattle.std.specs.Prelude.{◌≡◌, ◌<◌, true, [], ◌∷◌, ◌++◌, length, slice_index_or, IfOk, OnOk, OnErr, IsOk};
ghost use Rattle.cq_position.specs.Comments.{words, comment_of};
ghost use Rattle.pgn_tree.specs.Words.{without_braces};
ghost use Rattle.pgn_tree.specs.Notes.{AreKeptAnnotations};

use crate::comments::Comments;
use cq_common::NoMemory;
use smallvec::SmallVec;
use std::alloc::Global;
use std::marker::Model;

/// Glyphs and comments. Without a comment and with at most four glyphs they take no memory but for themselves.
#[derive(Drop)]
pub struct Notes {
    nags: SmallVec<u8, 4>,
    comments: Comments,
}

impl Model for Notes {
    ghost use Rattle.pgn_tree.specs.Notes.{Annotations};

    ghost Value = { Annotations };

    ghost use Rattle.pgn_tree.specs.NotesInside.{notes_inside, HaveRoom};

    ghost view = { notes_inside };

    ghost invariant = { HaveRoom };
}

impl Notes {
    /// Returns no glyphs and no comments.
    pub fn new(alloc: Global) -> Notes
        ensures { result ≡ record { nags = []; comments = [] } }
    {
        Notes {
            nags: SmallVec::new(alloc),
            comments: Comments::new(alloc),
        }
    }

    /// Returns true. The clause is a property of all notes.
    pub fn are_kept(&self) -> bool
        ensures value { result ≡ true }
        ensures kept { AreKeptAnnotations self.now }
    {
        // read for the proof alone
        let _comments = self.comments.len();
        true
    }

    /// Returns the glyphs.
    pub fn nags(&self) -> &[u8]
        ensures { result.now ≡ self.now.nags }
    {
        self.nags.as_slice()
    }

    /// Returns the number of comments.
    pub fn comments(&self) -> usize
        ensures { result ≡ length self.now.comments }
    {
        self.comments.len()
    }

    /// Returns comment number `i`, counted from 0.
    pub fn comment(&self, i: usize) -> &[u8]
        requires { i < length self.now.comments }
        ensures { result.now ≡ slice_index_or self.now.comments i [] }
    {
        self.comments.get(i)
    }

    /// Adds a glyph; the first four take no memory.
    ///
    /// # Errors
    ///
    /// Fails only if out of memory, and then changes nothing.
    pub fn add_nag(&mut self, nag: u8) -> Result<(), NoMemory>
        ensures ok { OnOk result (self.new ≡ record self.old { nags = self.old.nags ++ nag ∷ [] }) }
        ensures err { OnErr result (self.new ≡ self.old) }
        ensures room { length self.old.nags < 4 → IsOk result }
    {
        self.nags.push(nag)?;
        Ok(())
    }

    /// Adds the comment of a text: its words with single spaces between them, and closing parentheses for closing
    /// braces. A text without words adds nothing.
    ///
    /// # Errors
    ///
    /// Fails only if out of memory, and then changes nothing.
    pub fn add_comment(&mut self, text: &[u8]) -> Result<(), NoMemory>
        ensures ok { OnOk result (self.new ≡ record self.old {
          comments = self.old.comments ++ comment_of (words (without_braces text.now));
        }) }
        ensures err { OnErr result (self.new ≡ self.old) }
    {
        self.comments.add(text)
    }

    /// Returns the comments alone.
    pub fn without_nags(self, alloc: Global) -> Notes
        ensures { result ≡ record self { nags = [] } }
    {
        Notes {
            nags: SmallVec::new(alloc),
            comments: self.comments,
        }
    }

    /// Returns a copy.
    ///
    /// # Errors
    ///
    /// Fails only if out of memory.
    pub fn copy(&self, alloc: Global) -> Result<Notes, NoMemory>
        ensures { IfOk result (λ n. n ≡ self.now) }
    {
        let mut nags = SmallVec::new(alloc);
        nags.extend_from_slice(self.nags.as_slice())?;
        Ok(Notes {
            nags,
            comments: self.comments.copy(alloc)?,
        })
    }
}
