//! A node that is being read.
ghost use Rattle.std.specs.Prelude.{◌≡◌};

use cq_position::{Move, Position};
use pgn_tree::Notes;
use std::marker::Model;

/// A node, and the level of its parent in the tree; that of the root's children is 0.
// The position is the first field, so that it is copied in whole words.
#[derive(Drop)]
pub struct NodeRow {
    position: Position,
    notes: Notes,
    level: u32,
    step: Move,
}

impl Model for NodeRow {
    ghost use Rattle.pgn_reader.specs.Internal.Frame.{NodeRow};

    ghost Value = { NodeRow };

    ghost use Rattle.pgn_reader.specs.Internal.NodeRowInside.{row_inside};

    ghost view = { row_inside };
}

impl NodeRow {
    /// Returns the node of a move to a position, with its glyphs and comments.
    pub fn new(level: u32, step: Move, position: Position, notes: Notes) -> NodeRow
        ensures { result ≡ record {
          level = level;
          move = record { move = step; position = position; nags = notes.nags; comments = notes.comments };
        } }
    {
        NodeRow {
            level,
            step,
            position,
            notes,
        }
    }

    /// Returns the level of its parent.
    pub fn level(&self) -> u32
        ensures { result ≡ self.now.level }
    {
        self.level
    }

    /// Returns the move.
    pub fn step(&self) -> Move
        ensures { result ≡ self.now.move.move }
    {
        self.step
    }

    /// Returns the position after it.
    pub fn position(&self) -> &Position
        ensures { result.now ≡ self.now.move.position }
    {
        &self.position
    }

    /// Returns its glyphs and comments alone.
    pub fn into_notes(self) -> Notes
        ensures { result ≡ record { nags = self.move.nags; comments = self.move.comments } }
    {
        self.notes
    }
}
