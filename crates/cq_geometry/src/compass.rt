//! The eight directions of the board.
ghost use Rattle.std.specs.Prelude.{◌≡◌, ◌<◌, IfSome, pos, negsuc, ◌+ℤ◌, ◌*ℤ◌, ◌≤ℤ◌};
ghost use Rattle.cq_geometry.specs.Directions.{files_of, ranks_of};
ghost use Rattle.cq_geometry.specs.Steps.{on_board, steps_away};

use crate::square::{Square, file, rank, square_at};
use crate::steps::moved;

/// A direction, as White sees the board. Up is one rank more, right is one file more.
#[derive(Clone, Copy, Debug, PartialEq, Eq)]
pub enum Compass {
    Up,
    Down,
    Left,
    Right,
    Northeast,
    Northwest,
    Southeast,
    Southwest,
}

impl Compass {
    /// The files that one step goes to the right: -1, 0 or 1.
    pub fn files(self) -> i8
        ensures { result ≡ files_of self }
    {
        match self {
            Compass::Left | Compass::Northwest | Compass::Southwest => -1,
            Compass::Up | Compass::Down => 0,
            Compass::Right | Compass::Northeast | Compass::Southeast => 1,
        }
    }

    /// The ranks that one step goes up: -1, 0 or 1.
    pub fn ranks(self) -> i8
        ensures { result ≡ ranks_of self }
    {
        match self {
            Compass::Down | Compass::Southeast | Compass::Southwest => -1,
            Compass::Left | Compass::Right => 0,
            Compass::Up | Compass::Northeast | Compass::Northwest => 1,
        }
    }
}

/// The square `n` steps away in a direction, or None if it is off the board.
pub fn toward(s: Square, c: Compass, n: u32) -> Option<Square>
    ensures goal { result ≡ steps_away (files_of c) (ranks_of c) s n }
    ensures board { IfSome result (λ goal. goal < 64) }
{
    let file = moved_times(file(s), c.files(), n)?;
    let rank = moved_times(rank(s), c.ranks(), n)?;
    Some(square_at(file, rank))
}

// The file or rank `n` times `by` further, or None if it is off the board.
fn moved_times(coordinate: u8, by: i8, n: u32) -> Option<u8>
    requires low { negsuc 0 ≤ℤ by }
    requires high { by ≤ℤ pos 1 }
    ensures { result ≡ on_board (pos coordinate +ℤ pos n *ℤ by) }
{
    moved(coordinate, i64::from(n) * i64::from(by))
}
