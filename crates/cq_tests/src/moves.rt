//! Lines of legal moves, counted.
use cq_moves::{is_legal, legal_moves, play};
use cq_position::{Position, read_fen};
use std::test::Fail;

// Returns the number of lines of so many legal moves from a position.
fn perft(position: &Position, depth: u32) -> u64 {
    let moves = legal_moves(position);
    if depth <= 1 {
        return moves.len() as u64;
    }
    let mut count = 0u64;
    for m in moves.as_slice() {
        if is_legal(position, *m) {
            count = count.saturating_add(perft(&play(position, *m), depth - 1));
        }
    }
    count
}

const START: &[u8] = b"rnbqkbnr/pppppppp/8/8/8/8/PPPPPPPP/RNBQKBNR w KQkq - 0 1";

const CASTLING: &[u8] = b"r3k2r/p1ppqpb1/bn2pnp1/3PN3/1p2P3/2N2Q1p/PPPBBPPP/R3K2R w KQkq - 0 1";

const PAWNS: &[u8] = b"8/2p5/3p4/KP5r/1R3p1k/8/4P1P1/8 w - - 0 1";

const CHECKED: &[u8] = b"r3k2r/Pppp1ppp/1b3nbN/nP6/BBP1P3/q4N2/Pp1P2PP/R2Q1RK1 w kq - 0 1";

const PROMOTING: &[u8] = b"rnbq1k1r/pp1Pbppp/2p5/8/2B5/8/PPP1NnPP/RNBQK2R w KQ - 1 8";

// The counts that chess programmers publish for these positions ("perft").
static PUBLISHED: [(&[u8], u32, u64); 17] = [
    (START, 1, 20),
    (START, 2, 400),
    (START, 3, 8_902),
    (START, 4, 197_281),
    (CASTLING, 1, 48),
    (CASTLING, 2, 2_039),
    (CASTLING, 3, 97_862),
    (PAWNS, 1, 14),
    (PAWNS, 2, 191),
    (PAWNS, 3, 2_812),
    (PAWNS, 4, 43_238),
    (CHECKED, 1, 6),
    (CHECKED, 2, 264),
    (CHECKED, 3, 9_467),
    (PROMOTING, 1, 44),
    (PROMOTING, 2, 1_486),
    (PROMOTING, 3, 62_379),
];

fn perft_of(fen: &[u8], depth: u32) -> Result<u64, Fail> {
    Ok(perft(&read_fen(fen)?, depth))
}

#[test]
fn lines_are_as_many_as_published(rt: HostRuntime) -> Result<(), Fail> {
    for (fen, depth, count) in PUBLISHED.iter() {
        assert!(rt; perft_of(fen, *depth)? == *count);
    }
    Ok(())
}
