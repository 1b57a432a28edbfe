//! A line that is being read.
ghost use Rattle.std.specs.Prelude.{◌≡◌, ◌<◌, ◌+◌, ◌^◌, ◌++◌, OnOk, IfOk};
ghost use Rattle.pgn_tree.specs.Words.{without_braces};
ghost use Rattle.pgn_reader.specs.Internal.Frame.{begin, begin_game, advance, with_last_kept, with_variations_kept, with_glyph, with_remark, with_variation, node_of_last, whole};
ghost use Rattle.pgn_reader.specs.Internal.LineInside.{backwards};

use crate::node_row::NodeRow;
use cq_common::NoMemory;
use cq_position::{Move, Position};
use pgn_tree::Notes;
use std::alloc::Global;
use std::marker::Model;
use std::mem;

/// A number of moves that most games don't exceed.
const MOVES_OF_MOST_GAMES: usize = 120;

/// The place reached in a line, and the line's nodes. They are those of its moves but the last, those of the variations
/// after the last move, and those of the variations after each earlier move.
#[derive(Drop)]
pub struct Line {
    before: Option<Position>,
    reached: Position,
    level: u32,
    next: u32,
    last: Option<Move>,
    notes: Notes,
    moves: Vec<NodeRow>,
    here: Vec<NodeRow>,
    earlier: Vec<Vec<NodeRow>>,
}

impl Model for Line {
    ghost use Rattle.pgn_reader.specs.Internal.Frame.{Frame};

    ghost Value = { Frame };

    ghost use Rattle.pgn_reader.specs.Internal.LineInside.{line_inside};

    ghost view = { line_inside };
}

impl Line {
    fn empty(alloc: Global, reached: Position, next: u32, last: Option<Move>) -> Line
        ensures { result ≡ record (begin next reached) { last = last } }
    {
        Line {
            before: None,
            reached,
            level: 0,
            next,
            last,
            notes: Notes::new(alloc),
            moves: Vec::new(alloc),
            here: Vec::new(alloc),
            earlier: Vec::new(alloc),
        }
    }

    /// Returns the line of a variation from a position, whose first move has this level.
    pub fn new(alloc: Global, level: u32, reached: Position) -> Line
        ensures { result ≡ begin level reached }
    {
        Line::empty(alloc, reached, level, None)
    }

    /// Returns the line of a game from a position.
    pub fn of_game(alloc: Global, reached: Position) -> Line
        ensures { result ≡ begin_game reached }
    {
        Line::empty(alloc, reached, 0, Some(Move::default()))
    }

    /// Returns the position before the last move.
    pub fn before(&self) -> Option<Position>
        ensures { result ≡ self.now.before }
    {
        self.before
    }

    /// Returns the position reached.
    pub fn reached(&self) -> &Position
        ensures { result.now ≡ self.now.reached }
    {
        &self.reached
    }

    /// Returns the level of the last move.
    pub fn level(&self) -> u32
        ensures { result ≡ self.now.level }
    {
        self.level
    }

    /// Adds a glyph.
    ///
    /// # Errors
    ///
    /// Fails only if out of memory.
    pub fn add_nag(&mut self, nag: u8) -> Result<(), NoMemory>
        ensures { OnOk result (self.new ≡ with_glyph self.old nag) }
    {
        self.notes.add_nag(nag)
    }

    /// Adds a comment.
    ///
    /// # Errors
    ///
    /// Fails only if out of memory.
    pub fn add_comment(&mut self, text: &[u8]) -> Result<(), NoMemory>
        ensures { OnOk result (self.new ≡ with_remark self.old (without_braces text.now)) }
    {
        self.notes.add_comment(text)
    }

    // Reserves memory for most games at a game's first move, so that their nodes are seldom copied.
    fn make_room(&mut self) -> Result<(), NoMemory>
        ensures { self.new ≡ self.old }
    {
        if self.before.is_none() {
            self.moves.reserve(MOVES_OF_MOST_GAMES)?;
        }
        Ok(())
    }

    // Appends the last move to the earlier ones, with its glyphs and comments. Before the first move of a variation
    // there is none, and the glyphs and comments stay.
    fn keep_last(&mut self, alloc: Global) -> Result<(), NoMemory>
        ensures { OnOk result (self.new ≡ with_last_kept self.old) }
    {
        if let Some(last) = self.last {
            self.make_room()?;
            let notes = mem::replace(&mut self.notes, Notes::new(alloc));
            self.moves
                .push(NodeRow::new(self.level, last, self.reached, notes))?;
        }
        Ok(())
    }

    // Appends the variations after the last move to those after the earlier ones.
    fn keep_variations(&mut self, alloc: Global) -> Result<(), NoMemory>
        ensures { OnOk result (self.new ≡ with_variations_kept self.old) }
    {
        if self.here.is_empty() {
            return Ok(());
        }
        let here = mem::replace(&mut self.here, Vec::new(alloc));
        self.earlier.push(here)?;
        Ok(())
    }

    /// Adds a move to a position.
    ///
    /// # Errors
    ///
    /// Fails only if out of memory.
    pub fn advance(&mut self, alloc: Global, step: Move, position: Position) -> Result<(), NoMemory>
        requires { self.old.next + 1 < 2 ^ 32 }
        ensures { OnOk result (self.new ≡ advance self.old step position) }
    {
        self.keep_last(alloc)?;
        self.keep_variations(alloc)?;
        self.before = Some(self.reached);
        self.reached = position;
        self.level = self.next;
        self.next += 1;
        self.last = Some(step);
        Ok(())
    }

    /// Adds a variation after the last move.
    ///
    /// # Errors
    ///
    /// Fails only if out of memory.
    pub fn add_variation(&mut self, variation: Line) -> Result<(), NoMemory>
        ensures { OnOk result (self.new ≡ with_variation self.old variation) }
    {
        let rows = variation.into_rows()?;
        push_all(&mut self.here, rows)
    }

    /// Returns its nodes in preorder.
    ///
    /// # Errors
    ///
    /// Fails only if out of memory.
    pub fn into_rows(self) -> Result<Vec<NodeRow>, NoMemory>
        ensures { IfOk result (λ rows. rows.items ≡ whole self) }
    {
        let mut rows = self.moves;
        push_last(&mut rows, self.level, self.last, self.reached, self.notes)?;
        push_all(&mut rows, self.here)?;
        push_groups(&mut rows, self.earlier)?;
        Ok(rows)
    }
}

// Adds the node of a line's last move, if it has one.
fn push_last(
    rows: &mut Vec<NodeRow>,
    level: u32,
    last: Option<Move>,
    reached: Position,
    notes: Notes,
) -> Result<(), NoMemory>
    ensures { OnOk result (rows.new.items ≡ rows.old.items ++ node_of_last level last reached notes) }
{
    if let Some(last) = last {
        rows.push(NodeRow::new(level, last, reached, notes))?;
    }
    Ok(())
}

// Adds all rows.
fn push_all(rows: &mut Vec<NodeRow>, more: Vec<NodeRow>) -> Result<(), NoMemory>
    ensures { OnOk result (rows.new.items ≡ rows.old.items ++ more.items) }
{
    for row in more {
        rows.push(row)?;
    }
    Ok(())
}

// Adds the rows of all groups, those of the last group first.
fn push_groups(rows: &mut Vec<NodeRow>, groups: Vec<Vec<NodeRow>>) -> Result<(), NoMemory>
    ensures { OnOk result (rows.new.items ≡ rows.old.items ++ backwards (λ group. group.items) groups.items) }
{
    for group in groups.into_iter().rev() {
        push_all(rows, group)?;
    }
    Ok(())
}
