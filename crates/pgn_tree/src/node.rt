//! A node of a game.
ghost use Rattle.std.specs.Prelude.{◌≡◌, ◌<◌, [], length, slice_index_or, IfOk, OnOk, OnErr, IsOk};
ghost use Rattle.cq_position.specs.Games.{with_nag, with_comment};
ghost use Rattle.pgn_tree.specs.Links.{IsSameLinked, unlinked, with_first_child, with_last_child, with_next_sibling};
ghost use Rattle.pgn_tree.specs.Notes.{annotated_node};
ghost use Rattle.pgn_tree.specs.Words.{without_braces};

use crate::notes::Notes;
use cq_common::NoMemory;
use cq_position::{Move, Position};
use std::alloc::Global;
use std::marker::Model;

/// A node and its links.
// The position is the first field, so that it is copied in whole words.
#[derive(Drop)]
pub struct Node {
    position: Position,
    notes: Notes,
    parent: Option<u32>,
    first_child: Option<u32>,
    last_child: Option<u32>,
    next_sibling: Option<u32>,
    led_by: Option<Move>,
    main: bool,
}

impl Model for Node {
    ghost use Rattle.pgn_tree.specs.Links.{LinkedNode};

    ghost Value = { LinkedNode };

    ghost use Rattle.pgn_tree.specs.Inside.{node_inside};

    ghost view = { node_inside };
}

impl Node {
    /// Returns a node without children and siblings.
    pub fn new(
        parent: Option<u32>,
        led_by: Option<Move>,
        position: Position,
        notes: Notes,
        main: bool,
    ) -> Node
        ensures { result ≡ unlinked (annotated_node parent led_by position notes) main }
    {
        Node {
            parent,
            first_child: None,
            last_child: None,
            next_sibling: None,
            main,
            led_by,
            position,
            notes,
        }
    }

    /// Returns the number of its parent; None at the root.
    pub fn parent(&self) -> Option<u32>
        ensures { result ≡ self.now.node.parent }
    {
        self.parent
    }

    /// Returns the number of its first child.
    pub fn first_child(&self) -> Option<u32>
        ensures { result ≡ self.now.first_child }
    {
        self.first_child
    }

    /// Returns the number of its last child.
    pub fn last_child(&self) -> Option<u32>
        ensures { result ≡ self.now.last_child }
    {
        self.last_child
    }

    /// Returns the number of its next sibling.
    pub fn next_sibling(&self) -> Option<u32>
        ensures { result ≡ self.now.next_sibling }
    {
        self.next_sibling
    }

    /// Returns true if it is of the main line.
    pub fn is_main(&self) -> bool
        ensures { result ≡ self.now.main }
    {
        self.main
    }

    /// Returns the move that led to it; None at the root.
    pub fn led_by(&self) -> Option<Move>
        ensures { result ≡ self.now.node.led_by }
    {
        self.led_by
    }

    /// Returns its position.
    pub fn position(&self) -> &Position
        ensures { result.now ≡ self.now.node.position }
    {
        &self.position
    }

    /// Returns its numeric annotation glyphs.
    pub fn nags(&self) -> &[u8]
        ensures { result.now ≡ self.now.node.nags }
    {
        self.notes.nags()
    }

    /// Returns the number of its comments.
    pub fn comments(&self) -> usize
        ensures { result ≡ length self.now.node.comments }
    {
        self.notes.comments()
    }

    /// Returns comment number `i`, counted from 0.
    pub fn comment(&self, i: usize) -> &[u8]
        requires { i < length self.now.node.comments }
        ensures { result.now ≡ slice_index_or self.now.node.comments i [] }
    {
        self.notes.comment(i)
    }

    /// Sets the first child.
    pub fn set_first_child(&mut self, child: u32)
        ensures { self.new ≡ with_first_child child self.old }
    {
        self.first_child = Some(child);
    }

    /// Sets the last child.
    pub fn set_last_child(&mut self, child: u32)
        ensures { self.new ≡ with_last_child child self.old }
    {
        self.last_child = Some(child);
    }

    /// Sets the next sibling.
    pub fn set_next_sibling(&mut self, sibling: u32)
        ensures { self.new ≡ with_next_sibling sibling self.old }
    {
        self.next_sibling = Some(sibling);
    }

    /// Adds a numeric annotation glyph; the first four take no memory.
    ///
    /// # Errors
    ///
    /// Fails only if out of memory, and then changes nothing.
    pub fn add_nag(&mut self, nag: u8) -> Result<(), NoMemory>
        ensures ok { OnOk result (self.new ≡ record self.old { node = with_nag nag self.old.node }) }
        ensures err { OnErr result (self.new ≡ self.old) }
        ensures place { IsSameLinked self.old self.new }
        ensures room { length self.old.node.nags < 4 → IsOk result }
    {
        self.notes.add_nag(nag)
    }

    /// Adds the comment of a text, if it has a word; a closing brace becomes a closing parenthesis.
    ///
    /// # Errors
    ///
    /// Fails only if out of memory, and then changes nothing.
    pub fn add_comment(&mut self, text: &[u8]) -> Result<(), NoMemory>
        ensures ok { OnOk result (self.new ≡ record self.old { node = with_comment (without_braces text.now) self.old.node }) }
        ensures err { OnErr result (self.new ≡ self.old) }
        ensures place { IsSameLinked self.old self.new }
    {
        self.notes.add_comment(text)
    }

    /// Returns a copy.
    ///
    /// # Errors
    ///
    /// Fails only if out of memory.
    pub fn copy(&self, alloc: Global) -> Result<Node, NoMemory>
        ensures { IfOk result (λ n. n ≡ self.now) }
    {
        Ok(Node {
            parent: self.parent,
            first_child: self.first_child,
            last_child: self.last_child,
            next_sibling: self.next_sibling,
            main: self.main,
            led_by: self.led_by,
            position: self.position,
            notes: self.notes.copy(alloc)?,
        })
    }
}
