//! The two sides, the men and their letters.
ghost use Rattle.std.specs.Prelude.{◌≡◌};
ghost use Rattle.cq_position.specs.Men.{man_with_letter, letter_of_man};
ghost use Rattle.cq_position.specs.Men as men_spec;

/// One of the two players.
#[derive(Clone, Copy, Debug, PartialEq, Eq)]
pub enum Side {
    White,
    Black,
}

/// A man of White (`K` to `P`: king, queen, rook, bishop, knight, pawn), a man of Black, or `Empty` for an empty square.
#[derive(Clone, Copy, Debug, PartialEq, Eq)]
pub enum Man {
    K,
    Q,
    R,
    B,
    N,
    P,
    BlackK,
    BlackQ,
    BlackR,
    BlackB,
    BlackN,
    BlackP,
    Empty,
}

impl Man {
    /// Each man in the order of the type, the empty square last.
    pub const ALL: [Man; 13] = [
        Man::K,
        Man::Q,
        Man::R,
        Man::B,
        Man::N,
        Man::P,
        Man::BlackK,
        Man::BlackQ,
        Man::BlackR,
        Man::BlackB,
        Man::BlackN,
        Man::BlackP,
        Man::Empty,
    ];
}

/// The kinds of men of either side (FIDE Laws of Chess, article 2.2).
#[derive(Clone, Copy, Debug, PartialEq, Eq)]
pub enum Piece {
    King,
    Queen,
    Rook,
    Bishop,
    Knight,
    Pawn,
}

/// The piece that a pawn becomes on the last rank: a queen, a rook, a bishop or a knight (FIDE Laws of Chess, article 3.7). It is `None`
/// for every other move.
#[derive(Clone, Copy, Debug, PartialEq, Eq)]
pub enum Promotion {
    None,
    Q,
    R,
    B,
    N,
}

/// The man of a letter: `KQRBNP` for White, `kqrbnp` for Black, None for any other byte (PGN standard, section 16.1.3.1).
pub fn man_of_letter(letter: u8) -> Option<Man>
    ensures { result ≡ man_with_letter letter }
{
    match letter {
        b'K' => Some(Man::K),
        b'Q' => Some(Man::Q),
        b'R' => Some(Man::R),
        b'B' => Some(Man::B),
        b'N' => Some(Man::N),
        b'P' => Some(Man::P),
        b'k' => Some(Man::BlackK),
        b'q' => Some(Man::BlackQ),
        b'r' => Some(Man::BlackR),
        b'b' => Some(Man::BlackB),
        b'n' => Some(Man::BlackN),
        b'p' => Some(Man::BlackP),
        _ => None,
    }
}

/// The letter of a man, upper case for White, or None for the empty square (PGN standard, section 16.1.3.1).
pub fn letter_of(man: Man) -> Option<u8>
    ensures { result ≡ letter_of_man man }
{
    match man {
        Man::K => Some(b'K'),
        Man::Q => Some(b'Q'),
        Man::R => Some(b'R'),
        Man::B => Some(b'B'),
        Man::N => Some(b'N'),
        Man::P => Some(b'P'),
        Man::BlackK => Some(b'k'),
        Man::BlackQ => Some(b'q'),
        Man::BlackR => Some(b'r'),
        Man::BlackB => Some(b'b'),
        Man::BlackN => Some(b'n'),
        Man::BlackP => Some(b'p'),
        Man::Empty => None,
    }
}

/// Returns true if a man is of a side. The empty square is of none.
#[inline]
pub fn is_of_side(man: Man, side: Side) -> bool
    ensures { result ≡ men_spec.is_of_side side man }
{
    let number = man as u8;
    match side {
        Side::White => number < 6,
        Side::Black => 6 <= number && number < 12,
    }
}

/// The other side.
#[inline]
pub fn opponent(side: Side) -> Side
    ensures { result ≡ men_spec.opponent side }
{
    match side {
        Side::White => Side::Black,
        Side::Black => Side::White,
    }
}

/// The man of a side and a piece.
#[inline]
pub fn man_of(side: Side, piece: Piece) -> Man
    ensures { result ≡ men_spec.man_of side piece }
{
    match side {
        Side::White => match piece {
            Piece::King => Man::K,
            Piece::Queen => Man::Q,
            Piece::Rook => Man::R,
            Piece::Bishop => Man::B,
            Piece::Knight => Man::N,
            Piece::Pawn => Man::P,
        },
        Side::Black => match piece {
            Piece::King => Man::BlackK,
            Piece::Queen => Man::BlackQ,
            Piece::Rook => Man::BlackR,
            Piece::Bishop => Man::BlackB,
            Piece::Knight => Man::BlackN,
            Piece::Pawn => Man::BlackP,
        },
    }
}

/// The man that is the king of a side.
#[inline]
pub fn king_of(side: Side) -> Man
    ensures { result ≡ men_spec.king_of side }
{
    man_of(side, Piece::King)
}

/// The man that is a rook of a side.
#[inline]
pub fn rook_of(side: Side) -> Man
    ensures { result ≡ men_spec.rook_of side }
{
    man_of(side, Piece::Rook)
}
