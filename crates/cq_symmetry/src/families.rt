//! The families of mappings.
ghost use Rattle.std.specs.Prelude.{◌≡◌, ◌<◌, ◌-ℤ◌, Some, length, pos, slice_get, if◌then◌else◌};
ghost use Rattle.cq_symmetry.specs.Families as families;
ghost use Rattle.cq_symmetry.specs.Families.{members};
ghost use Rattle.cq_symmetry.specs.Mappings.{IsOnBoardStep};

use crate::mappings::Mapping;

/// A family of mappings that a query names by one word.
#[derive(Clone, Copy, Debug, PartialEq, Eq)]
pub enum Family {
    /// All eight symmetries.
    Flip,
    /// The four rotations.
    Rotate90,
    /// The board, and its mirror image up and down.
    FlipVertical,
    /// The board, and its mirror image left and right.
    FlipHorizontal,
    /// The board, and its mirror image up and down with the colours exchanged.
    FlipColor,
    /// All shifts by up to seven files and up to seven ranks.
    Shift,
    /// All shifts by up to seven files.
    ShiftHorizontal,
    /// All shifts by up to seven ranks.
    ShiftVertical,
}

/// The number of mappings in a family.
pub fn size(family: Family) -> u32
    ensures { result ≡ length (members family) }
{
    match family {
        Family::Flip => 8,
        Family::Rotate90 => 4,
        Family::FlipVertical | Family::FlipHorizontal | Family::FlipColor => 2,
        Family::Shift => 225,
        Family::ShiftHorizontal | Family::ShiftVertical => 15,
    }
}

/// The member of a family with the number `k`. Members count from 0, in the order in which the query language lists them.
#[tactic(auto, using(crate::proofs::Members::member_sets))]
pub fn member(family: Family, k: u32) -> Mapping
    requires { k < length (members family) }
    ensures { Some result ≡ slice_get (members family) k }
{
    match family {
        Family::Flip | Family::FlipHorizontal => turned(k as u8 + 1),
        Family::Rotate90 => turned(ROTATIONS[k as usize]),
        Family::FlipVertical => turned(2 * k as u8 + 1),
        Family::FlipColor => exchanged_if(k == 1),
        Family::Shift => shifted(signed(k % 15), signed(k / 15)),
        Family::ShiftHorizontal => shifted(signed(k), 0),
        Family::ShiftVertical => shifted(0, signed(k)),
    }
}

// The four rotations, by their symmetries, the identity first.
const ROTATIONS: [u8; 4] = [1, 7, 4, 6];

// A symmetry alone.
fn turned(symmetry: u8) -> Mapping
    requires low { 0 < symmetry }
    requires high { symmetry < 9 }
    ensures { result ≡ families.turned symmetry }
{
    Mapping {
        symmetry,
        exchange: false,
        east: 0,
        north: 0,
    }
}

// The board as it is, or upside down with the colours exchanged.
fn exchanged_if(exchange: bool) -> Mapping
    ensures { result ≡ (if exchange then families.exchanged else families.turned 1) }
{
    Mapping {
        symmetry: if exchange { 3 } else { 1 },
        exchange,
        east: 0,
        north: 0,
    }
}

// A shift alone.
fn shifted(east: i8, north: i8) -> Mapping
    requires sideways { IsOnBoardStep east }
    requires upwards { IsOnBoardStep north }
    ensures { result ≡ families.shifted east north }
{
    Mapping {
        symmetry: 1,
        exchange: false,
        east,
        north,
    }
}

// The n-th number from -7 to 7.
fn signed(n: u32) -> i8
    requires { n < 15 }
    ensures value { result ≡ pos n -ℤ pos 7 }
    ensures board { IsOnBoardStep result }
{
    n as i8 - 7
}
