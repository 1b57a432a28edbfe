//! Generated games.
ghost use Rattle.std.specs.Prelude.{◌≡◌, ◌++◌, IfOk, OnOk};
ghost use Rattle.cq_position.specs.Games.{IsTree};
ghost use Rattle.cq_maker.specs.GeneratedArchive as made;
ghost use Rattle.cq_maker.specs.Internal.DrawnMoves.{nodes_of_rows};

use crate::drawn_move::DrawnMove;
use crate::draws::Draws;
use crate::line::draw_line;
use cq_common::NoMemory;
use cq_moves::legal_moves;
use cq_position::{GameResult, Position, Side, in_check, opponent};
use itoa::Buffer;
use pgn_tree::{Game, Tags};
use std::alloc::Global;

/// The fewest plies of a game that no mate or stalemate ends.
const FEWEST_PLIES: u32 = 20;

/// The number of values from which the number of plies is drawn.
const PLY_RANGE: u32 = 60;

/// Returns the game with a number, by the next draws.
pub(crate) fn make_game(alloc: Global, draws: &mut Draws, number: u32) -> Result<Game, NoMemory>
    ensures game { IfOk result (λ g. g ≡ made.generated_game number (made.generated_line draws.old)) }
    ensures state { OnOk result (draws.new ≡ (made.generated_line draws.old).state) }
{
    let most = FEWEST_PLIES + draws.below(PLY_RANGE);
    let line = draw_line(alloc, draws, most)?;
    let tags = tags_of(alloc, number)?;
    let mut game = Game::new(alloc, tags, ending(&line.last), Position::start())?;
    add_rows(&mut game, line.main.as_slice())?;
    add_rows(&mut game, line.beside.as_slice())?;
    Ok(game)
}

// The tags of the game with a number.
fn tags_of(alloc: Global, number: u32) -> Result<Tags, NoMemory>
    ensures { IfOk result (λ tags. tags ≡ made.generated_tags number) }
{
    let mut tags = Tags::new(alloc);
    tags.add(b"Event", b"Selfrun")?;
    tags.add(b"Round", Buffer::new().format(number).as_bytes())?;
    Ok(tags)
}

// The result of a game that ends in a position.
#[tactic(auto, unfolding(crate::specs::GeneratedArchive::ending, crate::specs::Line::is_over))]
fn ending(last: &Position) -> GameResult
    ensures { result ≡ made.ending last.now }
{
    if !legal_moves(last).is_empty() {
        return GameResult::Open;
    }
    let side = last.side();
    if !in_check(last, side) {
        return GameResult::Draw;
    }
    won_by(opponent(side))
}

// The result of a game that a side has won.
fn won_by(side: Side) -> GameResult
    ensures { result ≡ made.won_by side }
{
    match side {
        Side::White => GameResult::White,
        Side::Black => GameResult::Black,
    }
}

// Adds rows after all nodes of a game.
fn add_rows(game: &mut Game, rows: &[DrawnMove]) -> Result<(), NoMemory>
    requires { IsTree (game.old.nodes ++ nodes_of_rows rows.now) }
    ensures { OnOk result (game.new ≡ record game.old { nodes = game.old.nodes ++ nodes_of_rows rows.now }) }
{
    prove!(game.is_tree());
    for row in rows {
        game.add_node(row.parent, row.led_by, row.position)?;
    }
    Ok(())
}
