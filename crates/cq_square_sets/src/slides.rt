//! Steps and slides of whole sets of squares.
ghost use Rattle.std.specs.Prelude.{◌≡◌, ◌≤◌, ◌≤ℤ◌, pos, negsuc};
ghost use Rattle.cq_geometry.specs.Steps.{IsDirection};
ghost use Rattle.cq_square_sets.specs.Sets.{IsSetOf, IsStepped, IsSlid};

/// A set of squares. Bit k is the square k: a1 is 0, b1 is 1 and h8 is 63.
pub type BitSet64 = u64;

pub(crate) const NOT_A_FILE: u64 = 0xfefe_fefe_fefe_fefe;

pub(crate) const NOT_H_FILE: u64 = 0x7f7f_7f7f_7f7f_7f7f;

/// The squares reached from a square of `from` in a direction through squares of `empty`. The first square that is not empty is included.
/// The direction is `DF` files to the right and `DR` ranks up, each from -1 to 1 and not both 0.
pub fn slide<const DF: i8, const DR: i8>(from: BitSet64, empty: BitSet64) -> BitSet64
    requires { IsDirection DF DR }
    ensures { IsSetOf result (IsSlid DF DR from empty) }
{
    let mut reached = 0;
    let mut edge = from;
    for _step in 0u32..7 {
        let moved = moved_by(edge, DF, DR);
        reached |= moved;
        edge = moved & empty;
    }
    reached
}

/// The squares one step further that are on the board.
pub(crate) fn moved_by(set: BitSet64, files: i8, ranks: i8) -> BitSet64
    requires { IsDirection files ranks }
    ensures { IsSetOf result (IsStepped files ranks set) }
{
    moved_along_files(moved_along_ranks(set, files), ranks)
}

// The squares so many files to the right.
#[tactic(auto, using(crate::proofs::Shifts::file_right, crate::proofs::Shifts::file_left, crate::proofs::Shifts::unmoved))]
fn moved_along_ranks(set: BitSet64, files: i8) -> BitSet64
    requires low { negsuc 0 ≤ℤ files }
    requires high { files ≤ℤ pos 1 }
    ensures { IsSetOf result (IsStepped files (pos 0) set) }
{
    if files > 0 {
        (set & NOT_H_FILE) << 1
    } else if files < 0 {
        (set & NOT_A_FILE) >> 1
    } else {
        set
    }
}

// The squares so many ranks up.
#[tactic(auto, using(crate::proofs::Shifts::rank_up, crate::proofs::Shifts::rank_down, crate::proofs::Shifts::unmoved))]
fn moved_along_files(set: BitSet64, ranks: i8) -> BitSet64
    requires low { negsuc 0 ≤ℤ ranks }
    requires high { ranks ≤ℤ pos 1 }
    ensures { IsSetOf result (IsStepped (pos 0) ranks set) }
{
    if ranks > 0 {
        set << 8
    } else if ranks < 0 {
        set >> 8
    } else {
        set
    }
}
