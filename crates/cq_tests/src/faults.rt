//! Texts that are no position and no move, by messages that no process tells.
use cq_position::read_fen;
use cq_san::read_san;
use std::alloc::Global;
use std::test::Fail;

const FIELDS: &str = "not six fields, nor four";

const PLACEMENT: &str = "the men do not fill eight ranks of eight squares";

const NUMBER: &str = "a number is not 1 to 9 digits";

/// A text that is no position, and the message of its fault.
static POSITIONS: [(&[u8], &str); 13] = [
    (b"", FIELDS),
    (b"8/8/8/8/8/8/8/K1k5 w - - 0", FIELDS),
    (b"8/8/8/8/8/8/7K1/8 x x e4 x x", PLACEMENT),
    (b"8/8/8/8/8/8/K1k5/ w - - 0 1", PLACEMENT),
    (
        b"8/8/8/8/8/8/8/P7 W x e4 x x",
        "the side to move is neither w nor b",
    ),
    (
        b"8/8/8/8/8/8/8/P7 w K- e4 x x",
        "the rights to castle are neither - nor letters of KQkq",
    ),
    (
        b"8/8/8/8/8/8/8/P7 w K e4 x x",
        "the en passant square is neither - nor a square of rank 3 or 6",
    ),
    (b"8/8/8/8/8/8/8/P7 w K - x 1", NUMBER),
    (b"8/8/8/8/8/8/8/P7 w K - 0 1234567890", NUMBER),
    (b"8/8/8/8/8/8/8/P7 w K - 0 1", "not one king of each side"),
    (
        b"8/8/NNNNNNNN/NNNNNNNN/8/8/8/PKk5 w K - 0 1",
        "a pawn on the first or the last rank",
    ),
    (
        b"8/8/NNNNNNNN/NNNNNNNN/8/8/8/1Kk5 w K - 0 1",
        "more than sixteen men of one side",
    ),
    (
        b"4k3/8/8/8/8/8/8/4RK2 w - - 0 1",
        "the side not to move is in check",
    ),
];

fn is_no_position(alloc: Global, text: &[u8], message: &str) -> Result<bool, Fail> {
    match read_fen(text) {
        Ok(_) => Ok(false),
        Err(fault) => Ok(format!(in alloc; "{fault}")?.as_str() == message),
    }
}

#[test]
fn texts_are_no_positions_for_their_reasons(rt: HostRuntime) -> Result<(), Fail> {
    for (text, message) in POSITIONS.iter() {
        assert!(rt; is_no_position(rt.alloc(), text, message)?);
    }
    Ok(())
}

/// After 1. d4 d5 2. Nf3 Nf6.
const KNIGHTS: &[u8] = b"rnbqkb1r/ppp1pppp/5n2/3p4/3P4/5N2/PPP1PPPP/RNBQKB1R w KQkq - 2 3";

const NO_MOVE: &str = "the text is no move";

/// A text that is no move there, and the message of its fault: the last four are in no archive.
static MOVES: [(&[u8], &str); 6] = [
    (b"Nd2", "more than one legal move fits the text"),
    (b"Nd3", "no legal move fits the text"),
    (b"", NO_MOVE),
    (b"+", NO_MOVE),
    (b"e3 ", NO_MOVE),
    (b"--+", NO_MOVE),
];

fn is_no_move(alloc: Global, text: &[u8], message: &str) -> Result<bool, Fail> {
    match read_san(&read_fen(KNIGHTS)?, text) {
        Ok(_) => Ok(false),
        Err(fault) => Ok(format!(in alloc; "{fault}")?.as_str() == message),
    }
}

#[test]
fn texts_are_no_moves_for_their_reasons(rt: HostRuntime) -> Result<(), Fail> {
    for (text, message) in MOVES.iter() {
        assert!(rt; is_no_move(rt.alloc(), text, message)?);
    }
    Ok(())
}
