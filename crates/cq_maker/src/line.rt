//! The moves that are drawn for a game.
ghost use Rattle.std.specs.Prelude.{◌≡◌, ◌≤◌, ◌<◌, ◌++◌, length, false, IfOk, OnOk};
ghost use Rattle.cq_position.specs.Board.{start_board};
ghost use Rattle.cq_position.specs.Continuations.{node_of, nodes_from};
ghost use Rattle.cq_moves.specs.LegalMoves.{legal_list};
ghost use Rattle.cq_maker.specs.Draws.{next};
ghost use Rattle.cq_maker.specs.Line as drawn;
ghost use Rattle.cq_maker.specs.Internal.DrawnMoves.{node_of_row, nodes_of_rows};

use crate::drawn_move::DrawnMove;
use crate::draws::Draws;
use arrayvec::ArrayVec;
use cq_common::NoMemory;
use cq_moves::{legal_moves, play};
use cq_position::{Move, Position};
use std::alloc::Global;

/// One in this number of moves has a variation.
const MOVES_PER_VARIATION: u32 = 16;

/// The rows of a game after its root, and the last position of its main line.
#[derive(Drop)]
pub struct Line {
    /// The main line.
    pub main: Vec<DrawnMove>,
    /// The variations, in the order of their nodes: the latest first, as each comes after the rest of the main line.
    pub beside: Vec<DrawnMove>,
    /// The position after the last move of the main line.
    pub last: Position,
}

/// Draws at most `most` moves from the initial array.
pub(crate) fn draw_line(alloc: Global, draws: &mut Draws, most: u32) -> Result<Line, NoMemory>
    ensures nodes { IfOk result (λ l. nodes_of_rows l.main.items ++ nodes_of_rows l.beside.items
        ≡ nodes_from 0 1 (drawn.line most start_board draws.old).moves) }
    ensures last { IfOk result (λ l. l.last ≡ (drawn.line most start_board draws.old).last) }
    ensures state { OnOk result (draws.new ≡ (drawn.line most start_board draws.old).state) }
{
    let mut last = Position::start();
    let mut main = Vec::new(alloc);
    let mut beside = Vec::new(alloc);
    for parent in 0..most {
        let moves = legal_moves(&last);
        if moves.is_empty() {
            break;
        }
        let row = draw_row(draws, parent, &last, &moves);
        draw_variation(draws, parent, &last, &moves, &mut beside)?;
        last = row.position;
        main.push(row)?;
    }
    beside.reverse();
    Ok(Line { main, beside, last })
}

// Draws a legal move of a position, which is that of node `parent`.
fn draw_row(
    draws: &mut Draws,
    parent: u32,
    position: &Position,
    moves: &ArrayVec<Move, 512>,
) -> DrawnMove
    requires moves { moves.now.items ≡ legal_list position.now }
    requires some { 0 < length moves.now.items }
    ensures row { node_of_row result ≡ node_of parent (drawn.ply_drawn position.now draws.old) }
    ensures state { draws.new ≡ next draws.old }
{
    let m = &moves[draws.below(moves.len() as u32) as usize];
    DrawnMove {
        parent,
        led_by: *m,
        position: play(position, *m),
    }
}

// Draws a number that decides on a variation at a position, which is that of node `parent`, and adds the variation if
// there is one.
fn draw_variation(
    draws: &mut Draws,
    parent: u32,
    position: &Position,
    moves: &ArrayVec<Move, 512>,
    beside: &mut Vec<DrawnMove>,
) -> Result<(), NoMemory>
    requires moves { moves.now.items ≡ legal_list position.now }
    requires some { 0 < length moves.now.items }
    ensures rows { OnOk result (nodes_of_rows beside.new.items
        ≡ nodes_of_rows beside.old.items ++ nodes_from parent 0 (drawn.variation_drawn position.now draws.old)) }
    ensures state { OnOk result (draws.new ≡ drawn.after_variation draws.old) }
{
    if draws.below(MOVES_PER_VARIATION) == 0 {
        beside.push(draw_row(draws, parent, position, moves))?;
    }
    Ok(())
}
