//! Calls that no program makes.
use cq_bits::{attackers, slide};
use cq_geometry::{Square, is_light, king_steps, knight_steps, ray};
use cq_position::{Man, Position, material, read_fen};
use std::mem::size_of;
use std::test::Fail;

/// A square, and true if it is light: a1, h1, d1, e1 and h8.
static LIGHT: [(u8, bool); 5] = [(0, false), (7, true), (3, true), (4, false), (63, false)];

fn has_its_colour(number: u8, light: bool) -> bool {
    number < 64 && is_light(Square::new(number)) == light
}

#[test]
fn light_squares_are_where_the_laws_of_chess_put_them(rt: HostRuntime) {
    for (number, light) in LIGHT.iter() {
        assert!(rt; has_its_colour(*number, *light));
    }
}

// Returns the numbers of steps of a knight on b1 and of a king on e1, and of squares from c1 up to h6.
fn count_steps() -> (usize, usize, usize) {
    let knight = knight_steps(Square::new(1)).len();
    let king = king_steps(Square::new(4)).len();
    (knight, king, ray::<1, 1>(Square::new(2)).len())
}

// Returns the number of White's pawns at the start, and of empty squares.
fn count_men() -> (u32, u32) {
    let start = Position::start();
    (material(&start, Man::P), material(&start, Man::Empty))
}

// A rook on a1 slides to b1, c1 and d1, if all squares but d1 are empty.
#[test]
fn steps_slides_and_men_are_as_many_as_at_the_start(rt: HostRuntime) {
    assert!(rt; count_steps() == (3, 5, 5));
    assert!(rt; count_men() == (8, 32));
    assert!(rt; slide::<1, 0>(1, !8) == 14);
}

fn attackers_at(fen: &[u8], squares: u64) -> Result<u64, Fail> {
    Ok(attackers(&read_fen(fen)?, squares))
}

// The queen on e2 and the pawn on d4 attack e5; the rook is behind the queen.
#[test]
fn attackers_of_a_square_are_those_that_attack_it(rt: HostRuntime) -> Result<(), Fail> {
    let fen = b"4k3/8/8/8/3P4/2N5/4Q3/4R1K1 b - - 0 1";
    assert!(rt; attackers_at(fen, 1 << 36)? == 1 << 27 | 1 << 12);
    Ok(())
}

// A game keeps a position for each of its moves.
#[test]
fn a_position_is_small(rt: HostRuntime) {
    assert!(rt; size_of::<Man>() == 1 && size_of::<Position>() <= 80);
}
