//! Laws of cuts, of readers and of lines, which nothing else calls, and the conditions of those of lines on a game.
use cq_common::Refusal;
use pgn_cut_laws::{markers_end_games, split_games_are_read_alike};
use pgn_json::{
    games_have_valid_nodes, lines_are_json, lines_are_utf8, same_lines_have_the_same_game,
    strings_are_read_back, texts_are_bytes,
};
use pgn_pieces::pieces_cover_their_archive;
use pgn_reader::{GameFault, read_game};
use std::alloc::Global;

/// A game with a tag that needs an escape and is no UTF-8, comments, glyphs, a variation and a null move.
const GAME: &[u8] =
    b"[White \"a\\\"b\xe9\"] {at the start} 1. e4 $1 $3 {CQL} {x\xc3\xa9} (1. -- e5) 1... c5 1-0";

fn is_kept_with_bytes(alloc: Global) -> Result<bool, Refusal<GameFault>> {
    let game = read_game(alloc, GAME, 0, true)?;
    Ok(games_have_valid_nodes(&game) && texts_are_bytes(&game))
}

#[test]
fn a_game_has_what_the_laws_of_lines_ask(rt: HostRuntime) -> Result<(), Refusal<GameFault>> {
    assert!(rt; is_kept_with_bytes(rt.alloc())?);
    Ok(())
}

#[test]
fn laws_are_called() {
    pieces_cover_their_archive();
    markers_end_games();
    split_games_are_read_alike();
    strings_are_read_back();
    lines_are_json();
    lines_are_utf8();
    same_lines_have_the_same_game();
}
