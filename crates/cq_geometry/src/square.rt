//! A square of the board.
ghost use Rattle.std.specs.Prelude.{◌≡◌, ◌<◌, ◌↔◌, IsTrue};
ghost use Rattle.cq_geometry.specs.Squares.{file_of, rank_of, square_of, IsLight};
ghost use Rattle.cq_geometry.specs.Steps as squares_apart;

use std::marker::Model;

/// A square. Contracts see its number: a1 is 0, b1 is 1 and h8 is 63.
#[derive(Clone, Copy, Debug, PartialEq, Eq, PartialOrd, Ord)]
pub struct Square {
    index: u8,
}

impl Model for Square {
    ghost use Rattle.std.specs.Prelude.{ℕ, ◌<◌};

    ghost Value = { ℕ };

    ghost view = { λ s. s.index };

    ghost invariant = { λ s. s.index < 64 };

    ghost inverse = { λ n. record { index = n } };
}

impl Default for Square {
    ghost is_default = { λ s. s ≡ 0 };

    /// The square a1.
    fn default() -> Square {
        Square { index: 0 }
    }
}

impl Square {
    /// The square with this number, below 64.
    #[inline]
    pub fn new(number: u8) -> Square
        requires { number < 64 }
        ensures { result ≡ number }
    {
        Square { index: number }
    }

    /// The square's number, below 64.
    #[inline]
    pub fn number(self) -> u8
        ensures value { result ≡ self }
        ensures below { result < 64 }
    {
        self.index
    }
}

/// The square of a file and a rank, both counted from 0.
#[inline]
pub fn square_at(file: u8, rank: u8) -> Square
    requires file { file < 8 }
    requires rank { rank < 8 }
    ensures { result ≡ square_of file rank }
{
    Square {
        index: 8 * rank + file,
    }
}

/// The file, from 0 for the a-file to 7.
#[inline]
pub fn file(s: Square) -> u8
    ensures value { result ≡ file_of s }
    ensures below { result < 8 }
{
    s.index % 8
}

/// The rank, from 0 for the first to 7.
#[inline]
pub fn rank(s: Square) -> u8
    ensures value { result ≡ rank_of s }
    ensures below { result < 8 }
    ensures board { s < 64 }
{
    s.index / 8
}

/// The number of files from one square to another, from 0 to 7.
#[inline]
pub fn files_apart(a: Square, b: Square) -> u8
    ensures value { result ≡ squares_apart.files_apart a b }
    ensures below { result < 8 }
{
    file(a).abs_diff(file(b))
}

/// The number of ranks from one square to another, from 0 to 7.
#[inline]
pub fn ranks_apart(a: Square, b: Square) -> u8
    ensures value { result ≡ squares_apart.ranks_apart a b }
    ensures below { result < 8 }
{
    rank(a).abs_diff(rank(b))
}

/// Returns true if the square is light, as h1 is (FIDE Laws of Chess, article 2.1).
pub fn is_light(s: Square) -> bool
    ensures { IsTrue result ↔ IsLight s }
{
    (file(s) + rank(s)) % 2 == 1
}
