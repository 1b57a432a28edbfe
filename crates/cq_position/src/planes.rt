//! The men on the board as four sets of squares.
ghost use Rattle.std.specs.Prelude.{◌≡◌, ◌<◌, ◌&&◌, ◌==◌, ℕ, replicate, slice_set};
ghost use Rattle.std.specs.Int.{bit_at};
ghost use Rattle.cq_square_sets.specs.Bitboards.{IsBitboard};
ghost use Rattle.cq_square_sets.specs.Planes.{IsWith};
ghost use Rattle.cq_position.specs.declared.men.Man.TheVariants.{Empty};
ghost use Rattle.cq_position.specs.Board.{man_at};
ghost use Rattle.cq_position.specs.Board as board;
ghost use Rattle.cq_position.specs.Men.{man_number, man_of as man_of_piece, is_of_side};
ghost use Rattle.cq_position.specs.Planes.{man_numbered, IsMoved};

use crate::men::{Man, Piece, Side, man_of};
use cq_geometry::Square;
use std::marker::Model;

/// The men on the squares a1, b1, .. h8. Contracts see the list of the men.
///
/// Bit k of the four words, the lowest word first, is the number of the man on the square k in the order of [`Man`]. The squares of a man
/// therefore come from the words in a few instructions.
#[derive(Clone, Copy, Debug)]
pub struct Men {
    ones: u64,
    twos: u64,
    fours: u64,
    eights: u64,
}

impl Model for Men {
    ghost use Rattle.std.specs.Prelude.{List};
    ghost use Rattle.cq_position.specs.declared.men.Man.{Man as ManValue};

    ghost Value = { List ManValue };

    ghost use Rattle.cq_position.specs.Inside.{men_inside, words_of, men_back, AreMen};

    ghost view = { men_inside };

    ghost invariant = { AreMen };

    ghost inverse = { words_of };

    ghost inverse_ok = { men_back };
}

impl PartialEq for Men {
    ghost use Rattle.std.specs.Cmp.{partial_equiv_from_equiv};
    ghost use Rattle.cq_position.specs.Men.{same_men, same_men_equiv};

    ghost eq = { same_men };

    ghost laws = { partial_equiv_from_equiv same_men_equiv };

    fn eq(&self, other: &Men) -> bool {
        are_same(self.ones, other.ones, self.twos, other.twos)
            && are_same(self.fours, other.fours, self.eights, other.eights)
    }
}

impl Eq for Men {
    ghost use Rattle.cq_position.specs.Men.{same_men_equiv};

    ghost laws = { same_men_equiv };
}

impl Men {
    /// A board without men.
    pub fn empty() -> Men
        ensures { result ≡ replicate 64 Empty }
    {
        Men {
            ones: 0,
            twos: 0,
            fours: u64::MAX,
            eights: u64::MAX,
        }
    }

    /// The men of a list for the squares a1, b1, .. h8.
    pub fn of(listed: &[Man; 64]) -> Men
        ensures { result ≡ listed.now }
    {
        let mut men = Men::empty();
        for number in 0..64 {
            men.set(Square::new(number), listed[usize::from(number)]);
        }
        men
    }

    /// The list of the men for the squares a1, b1, .. h8.
    pub fn listed(&self) -> [Man; 64]
        ensures { result ≡ self.now }
    {
        let _ones = self.ones; // read for the proof alone
        let mut listed = [Man::Empty; 64];
        for number in 0..64 {
            listed[usize::from(number)] = self.at(Square::new(number));
        }
        listed
    }

    /// The man on a square, or `Empty`.
    #[inline]
    pub fn at(&self, square: Square) -> Man
        ensures { result ≡ man_at self.now square }
    {
        man_numbered(
            bit(self.ones, square)
                + 2 * bit(self.twos, square)
                + 4 * bit(self.fours, square)
                + 8 * bit(self.eights, square),
        )
    }

    /// Puts a man on a square in place of the one there, or empties it with `Empty`.
    #[inline]
    pub fn set(&mut self, square: Square, man: Man)
        ensures { self.new ≡ slice_set self.old square man }
    {
        let number = number_of(man);
        self.ones = with_bit(self.ones, square, digit(number, 0));
        self.twos = with_bit(self.twos, square, digit(number, 1));
        self.fours = with_bit(self.fours, square, digit(number, 2));
        self.eights = with_bit(self.eights, square, digit(number, 3));
    }

    /// Takes the man on one square to another, in place of the one there, and leaves the first square empty.
    #[inline]
    pub fn carry(&mut self, from: Square, to: Square)
        ensures { self.new ≡ slice_set (slice_set self.old from Empty) to (man_at self.old from) }
    {
        self.ones = moved_bit(self.ones, from, to, 0);
        self.twos = moved_bit(self.twos, from, to, 0);
        self.fours = moved_bit(self.fours, from, to, 1);
        self.eights = moved_bit(self.eights, from, to, 1);
    }

    /// The squares of a side's men. Bit k of the result is the square k.
    #[inline]
    pub fn squares_of_side(&self, side: Side) -> u64
        ensures { IsBitboard result (λ square. is_of_side side (man_at self.now square)) }
    {
        match side {
            Side::White => !(self.eights | self.fours & self.twos),
            Side::Black => self.fours & self.twos | self.eights & !self.fours,
        }
    }

    /// The squares of a side's men of one kind. Bit k of the result is the square k.
    // Each side has its own call, so that the man's number is a constant if the piece is.
    #[inline]
    pub fn squares_of_piece(&self, side: Side, piece: Piece) -> u64
        ensures { IsBitboard result (λ square. board.stands self.now square (man_of_piece side piece)) }
    {
        match side {
            Side::White => self.squares_of(man_of(Side::White, piece)),
            Side::Black => self.squares_of(man_of(Side::Black, piece)),
        }
    }

    /// The squares of a man, or the empty squares for `Empty`. Bit k of the result is the square k.
    #[inline]
    pub fn squares_of(&self, man: Man) -> u64
        ensures { IsBitboard result (λ square. board.stands self.now square man) }
    {
        let number = number_of(man);
        like(self.ones, digit(number, 0))
            & like(self.twos, digit(number, 1))
            & like(self.fours, digit(number, 2))
            & like(self.eights, digit(number, 3))
    }
}

// Returns true if `a` is `b` and `c` is `d`.
#[inline]
fn are_same(a: u64, b: u64, c: u64, d: u64) -> bool
    ensures { result ≡ (a == b && c == d) }
{
    a == b && c == d
}

// The man with a number in the order of the type, `Empty` for all numbers above.
#[inline]
fn man_numbered(number: u8) -> Man
    ensures { result ≡ man_numbered number }
{
    match number {
        0 => Man::K,
        1 => Man::Q,
        2 => Man::R,
        3 => Man::B,
        4 => Man::N,
        5 => Man::P,
        6 => Man::BlackK,
        7 => Man::BlackQ,
        8 => Man::BlackR,
        9 => Man::BlackB,
        10 => Man::BlackN,
        11 => Man::BlackP,
        _ => Man::Empty,
    }
}

// The man's number in the order of the type.
#[inline]
fn number_of(man: Man) -> u8
    ensures { result ≡ man_number man }
{
    man as u8
}

// A bit of a man's number.
#[inline]
fn digit(number: u8, place: u8) -> u8
    requires { place < 4 }
    ensures value { result ≡ bit_at number place }
    ensures below { result < 2 }
{
    number >> place & 1
}

// The bit of a square in a word.
#[inline]
fn bit(word: u64, square: Square) -> u8
    ensures value { result ≡ bit_at word square }
    ensures below { result < 2 }
    ensures board { square < 64 }
{
    (word >> square.number() & 1) as u8
}

// The word with this bit at the square.
#[inline]
fn with_bit(word: u64, square: Square, bit: u8) -> u64
    requires { bit < 2 }
    ensures word { IsWith word square bit result }
    ensures board { square < 64 }
{
    if bit == 1 {
        word | 1 << square.number()
    } else {
        word & !(1 << square.number())
    }
}

// The word after its bit at one square went to another, and a new bit took its place.
#[inline]
fn moved_bit(word: u64, from: Square, to: Square, left: u8) -> u64
    requires { left < 2 }
    ensures word { IsMoved word from to left result }
    ensures from { from < 64 }
    ensures to { to < 64 }
{
    with_bit(with_bit(word, from, left), to, bit(word, from))
}

// The squares at which a word has this bit.
#[tactic(auto, using(crate::proofs::Digits::like_one))]
#[inline]
fn like(word: u64, bit: u8) -> u64
    requires { bit < 2 }
    ensures { IsBitboard result (λ k. bit_at word k == bit) }
{
    if bit == 1 { word } else { !word }
}
