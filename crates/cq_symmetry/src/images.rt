//! Images of parts and directions.
ghost use Rattle.std.specs.Prelude.{◌≡◌, ◌<◌, ◌≤◌, ◌+◌, ◌-◌, ◌^◌, ◌%◌, pos, ◌+ℤ◌, ◌≤ℤ◌, negsuc, bit_or, if◌then◌else◌, slice_index_or, find, neg_ℤ};
ghost use Rattle.cq_geometry.specs.Directions.{files_of, ranks_of};
ghost use Rattle.cq_geometry.specs.Steps.{on_board, square_on_board};
ghost use Rattle.cq_symmetry.specs.Images as spec;
ghost use Rattle.cq_symmetry.specs.Mappings.{IsOnBoardStep};

use crate::mappings::Mapping;
use crate::parts::SquarePart;
use cq_geometry::{Compass, Square, file, rank, square_at};

/// Expands to the images of a file and a rank under the eight symmetries, in the order of their numbers. Its arguments are both, and both
/// reversed.
macro_rules! turns {
    ($file:expr, $rank:expr, $back_file:expr, $back_rank:expr) => {
        [
            ($file, $rank),
            ($back_file, $rank),
            ($file, $back_rank),
            ($back_file, $back_rank),
            ($rank, $file),
            ($back_rank, $file),
            ($rank, $back_file),
            ($back_rank, $back_file),
        ]
    };
}

/// The image of a part under a mapping, or None if every square of it leaves the board.
///
/// A shift moves no part sideways that was written as whole ranks, and none up or down that was written as whole files. The symmetries 5 to
/// 8 make files of ranks, and ranks of files.
#[tactic(auto, unfolding(crate::specs::Images::image))]
pub fn image(m: Mapping, part: SquarePart) -> Option<SquarePart>
    ensures { result ≡ spec.image m part }
{
    let mut squares = 0;
    for number in 0..64 {
        let square = Square::new(number);
        let (file, rank) = (file(square), rank(square));
        let places = turns!(file, rank, 7 - file, 7 - rank);
        squares |= image_of_one(&m, &part, square, places[usize::from(m.symmetry - 1)]);
    }
    turned_part(m, part, squares)
}

// The image of a part, given the image's squares.
fn turned_part(m: Mapping, part: SquarePart, squares: u64) -> Option<SquarePart>
    ensures { result ≡ spec.part_or_none (record {
      squares = squares;
      whole_ranks = if spec.is_transposed m.symmetry then part.whole_files else part.whole_ranks;
      whole_files = if spec.is_transposed m.symmetry then part.whole_ranks else part.whole_files;
    }) }
{
    if squares == 0 {
        return None;
    }
    let (whole_ranks, whole_files) = if m.symmetry >= 5 {
        (part.whole_files, part.whole_ranks)
    } else {
        (part.whole_ranks, part.whole_files)
    };
    Some(SquarePart {
        squares,
        whole_ranks,
        whole_files,
    })
}

// The set of the one square to which a mapping takes a square of a part, given the image under its symmetry. Bit k of the result is the
// square k.
fn image_of_one(m: &Mapping, part: &SquarePart, square: Square, place: (u8, u8)) -> u64
    requires file { place.0 < 8 }
    requires rank { place.1 < 8 }
    requires turned { (place.0, place.1) ≡ spec.image_place m.now.symmetry square }
    ensures { result ≡ spec.mask_of (λ goal. spec.is_image m.now part.now goal square) }
{
    if !is_in(part.squares, square) {
        return 0;
    }
    match shifted(m, part, place) {
        Some(goal) => 1 << goal.number(),
        None => 0,
    }
}

// Returns true if a square is in a set.
fn is_in(squares: u64, square: Square) -> bool
    ensures { result ≡ spec.is_in squares square }
{
    squares >> square.number() & 1 == 1
}

// The square of a file and a rank, shifted with its part, if it is on the board.
fn shifted(m: &Mapping, part: &SquarePart, place: (u8, u8)) -> Option<Square>
    requires file { place.0 < 8 }
    requires rank { place.1 < 8 }
    ensures { result ≡ square_on_board
        (pos place.0 +ℤ spec.unless part.now.whole_ranks m.now.east)
        (pos place.1 +ℤ spec.unless part.now.whole_files m.now.north) }
{
    let file = moved(place.0, unless(part.whole_ranks, m.east))?;
    let rank = moved(place.1, unless(part.whole_files, m.north))?;
    Some(square_at(file, rank))
}

// The length of a shift, 0 for a part that it leaves in place.
fn unless(stays: bool, by: i8) -> i8
    requires { IsOnBoardStep by }
    ensures value { result ≡ spec.unless stays by }
    ensures board { IsOnBoardStep result }
{
    if stays { 0 } else { by }
}

// The file or rank `by` further, or None if it is off the board.
fn moved(coordinate: u8, by: i8) -> Option<u8>
    requires low { coordinate < 8 }
    requires step { IsOnBoardStep by }
    ensures { result ≡ on_board (pos coordinate +ℤ by) }
{
    let goal = coordinate as i8 + by;
    if 0 <= goal && goal < 8 {
        Some(goal as u8)
    } else {
        None
    }
}

const COMPASSES: [Compass; 8] = [
    Compass::Up,
    Compass::Down,
    Compass::Left,
    Compass::Right,
    Compass::Northeast,
    Compass::Northwest,
    Compass::Southeast,
    Compass::Southwest,
];

/// The image of a direction under the symmetry of a mapping.
#[tactic(auto, unfolding(crate::specs::Images::image_compass))]
pub fn image_compass(m: Mapping, c: Compass) -> Compass
    ensures { result ≡ spec.image_compass m c }
{
    compass_of(turned_step(&m, c)).unwrap_or(c)
}

// The image of a direction's step under the symmetry of a mapping.
fn turned_step(m: &Mapping, c: Compass) -> (i8, i8)
    ensures { result ≡ spec.turn neg_ℤ m.now.symmetry (files_of c) (ranks_of c) }
{
    let (files, ranks) = (c.files(), c.ranks());
    turns!(files, ranks, -files, -ranks)[usize::from(m.symmetry - 1)]
}

// The direction whose step goes so many files and ranks.
fn compass_of(step: (i8, i8)) -> Option<Compass>
    ensures { result ≡ find (spec.goes (step.0, step.1)) spec.compasses }
{
    for direction in COMPASSES {
        if goes(direction, step) {
            return Some(direction);
        }
    }
    None
}

// Returns true if the step of a direction goes so many files and ranks.
fn goes(direction: Compass, step: (i8, i8)) -> bool
    ensures { result ≡ spec.goes (step.0, step.1) direction }
{
    direction.files() == step.0 && direction.ranks() == step.1
}

/// Returns true if the symmetry of a mapping exchanges light and dark squares. Shifts don't count.
#[tactic(auto, using(crate::proofs::Turned::lights))]
pub fn changes_light(m: Mapping) -> bool
    ensures { result ≡ spec.changes_light m }
{
    matches!(m.symmetry, 2 | 3 | 6 | 7)
}
