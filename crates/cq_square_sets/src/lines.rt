//! The lines of rooks and bishops.
ghost use Rattle.std.specs.Prelude.{◌≡◌, ◌&&◌, ℕ, Bool, List, not, true};
ghost use Rattle.cq_geometry.specs.Lines.{is_orthogonal, is_diagonal, is_open, seen};
ghost use Rattle.cq_square_sets.specs.Bitboards.{IsBitboard, contains};
ghost use Rattle.cq_square_sets.specs.Sets.{rises, falls};

use crate::rays::{DOWN, LEFT, NORTHEAST, NORTHWEST, RIGHT, SOUTHEAST, SOUTHWEST, UP};
use crate::sets::{highest_square, lowest_square};
use cq_geometry::Square;

/// The other squares of a square's file and rank.
#[inline]
pub fn rook_lines(from: Square) -> u64
    ensures { IsBitboard result (is_orthogonal from) }
{
    ROOK_LINES[usize::from(from.number())]
}

/// The other squares of a square's diagonals.
#[inline]
pub fn bishop_lines(from: Square) -> u64
    ensures { IsBitboard result (is_diagonal from) }
{
    BISHOP_LINES[usize::from(from.number())]
}

/// The squares along a square's file and rank, up to and including the first on each side that is not empty.
#[inline]
pub fn rook_attacks(from: Square, empty: u64) -> u64
    ensures { (occupied : ℕ → Bool) → IsBitboard empty (λ k. not (occupied k)) →
        IsBitboard result (λ to. is_orthogonal from to && is_open occupied from to) }
{
    let at = usize::from(from.number());
    seen_rising(UP[at], empty)
        | seen_falling(DOWN[at], empty)
        | seen_falling(LEFT[at], empty)
        | seen_rising(RIGHT[at], empty)
}

/// The squares along a square's diagonals, up to and including the first on each side that is not empty.
#[inline]
pub fn bishop_attacks(from: Square, empty: u64) -> u64
    ensures { (occupied : ℕ → Bool) → IsBitboard empty (λ k. not (occupied k)) →
        IsBitboard result (λ to. is_diagonal from to && is_open occupied from to) }
{
    let at = usize::from(from.number());
    seen_rising(NORTHEAST[at], empty)
        | seen_rising(NORTHWEST[at], empty)
        | seen_falling(SOUTHEAST[at], empty)
        | seen_falling(SOUTHWEST[at], empty)
}

// The squares of a ray with rising numbers, up to and including the first that is not empty. H8 bounds the search, since no square is past
// it.
#[inline]
fn seen_rising(ray: u64, empty: u64) -> u64
    ensures { (along : List ℕ) (occupied : ℕ → Bool) → rises along ≡ true → IsBitboard ray (contains along) →
        IsBitboard empty (λ k. not (occupied k)) → IsBitboard result (contains (seen occupied along)) }
{
    let stop = lowest_square(ray & !empty | H8);
    ray & (u64::MAX >> (63 - stop.number()))
}

// The squares of a ray with falling numbers, up to and including the first that is not empty. A1 bounds the search, since no square is past
// it.
#[inline]
fn seen_falling(ray: u64, empty: u64) -> u64
    ensures { (along : List ℕ) (occupied : ℕ → Bool) → falls along ≡ true → IsBitboard ray (contains along) →
        IsBitboard empty (λ k. not (occupied k)) → IsBitboard result (contains (seen occupied along)) }
{
    let stop = highest_square(ray & !empty | A1);
    ray & (u64::MAX << stop.number())
}

const A1: u64 = 1;

const H8: u64 = 0x8000_0000_0000_0000;

const ROOK_LINES: [u64; 64] = [
    0x0101_0101_0101_01fe,
    0x0202_0202_0202_02fd,
    0x0404_0404_0404_04fb,
    0x0808_0808_0808_08f7,
    0x1010_1010_1010_10ef,
    0x2020_2020_2020_20df,
    0x4040_4040_4040_40bf,
    0x8080_8080_8080_807f,
    0x0101_0101_0101_fe01,
    0x0202_0202_0202_fd02,
    0x0404_0404_0404_fb04,
    0x0808_0808_0808_f708,
    0x1010_1010_1010_ef10,
    0x2020_2020_2020_df20,
    0x4040_4040_4040_bf40,
    0x8080_8080_8080_7f80,
    0x0101_0101_01fe_0101,
    0x0202_0202_02fd_0202,
    0x0404_0404_04fb_0404,
    0x0808_0808_08f7_0808,
    0x1010_1010_10ef_1010,
    0x2020_2020_20df_2020,
    0x4040_4040_40bf_4040,
    0x8080_8080_807f_8080,
    0x0101_0101_fe01_0101,
    0x0202_0202_fd02_0202,
    0x0404_0404_fb04_0404,
    0x0808_0808_f708_0808,
    0x1010_1010_ef10_1010,
    0x2020_2020_df20_2020,
    0x4040_4040_bf40_4040,
    0x8080_8080_7f80_8080,
    0x0101_01fe_0101_0101,
    0x0202_02fd_0202_0202,
    0x0404_04fb_0404_0404,
    0x0808_08f7_0808_0808,
    0x1010_10ef_1010_1010,
    0x2020_20df_2020_2020,
    0x4040_40bf_4040_4040,
    0x8080_807f_8080_8080,
    0x0101_fe01_0101_0101,
    0x0202_fd02_0202_0202,
    0x0404_fb04_0404_0404,
    0x0808_f708_0808_0808,
    0x1010_ef10_1010_1010,
    0x2020_df20_2020_2020,
    0x4040_bf40_4040_4040,
    0x8080_7f80_8080_8080,
    0x01fe_0101_0101_0101,
    0x02fd_0202_0202_0202,
    0x04fb_0404_0404_0404,
    0x08f7_0808_0808_0808,
    0x10ef_1010_1010_1010,
    0x20df_2020_2020_2020,
    0x40bf_4040_4040_4040,
    0x807f_8080_8080_8080,
    0xfe01_0101_0101_0101,
    0xfd02_0202_0202_0202,
    0xfb04_0404_0404_0404,
    0xf708_0808_0808_0808,
    0xef10_1010_1010_1010,
    0xdf20_2020_2020_2020,
    0xbf40_4040_4040_4040,
    0x7f80_8080_8080_8080,
];

const BISHOP_LINES: [u64; 64] = [
    0x8040_2010_0804_0200,
    0x0080_4020_1008_0500,
    0x0000_8040_2011_0a00,
    0x0000_0080_4122_1400,
    0x0000_0001_8244_2800,
    0x0000_0102_0488_5000,
    0x0001_0204_0810_a000,
    0x0102_0408_1020_4000,
    0x4020_1008_0402_0002,
    0x8040_2010_0805_0005,
    0x0080_4020_110a_000a,
    0x0000_8041_2214_0014,
    0x0000_0182_4428_0028,
    0x0001_0204_8850_0050,
    0x0102_0408_10a0_00a0,
    0x0204_0810_2040_0040,
    0x2010_0804_0200_0204,
    0x4020_1008_0500_0508,
    0x8040_2011_0a00_0a11,
    0x0080_4122_1400_1422,
    0x0001_8244_2800_2844,
    0x0102_0488_5000_5088,
    0x0204_0810_a000_a010,
    0x0408_1020_4000_4020,
    0x1008_0402_0002_0408,
    0x2010_0805_0005_0810,
    0x4020_110a_000a_1120,
    0x8041_2214_0014_2241,
    0x0182_4428_0028_4482,
    0x0204_8850_0050_8804,
    0x0408_10a0_00a0_1008,
    0x0810_2040_0040_2010,
    0x0804_0200_0204_0810,
    0x1008_0500_0508_1020,
    0x2011_0a00_0a11_2040,
    0x4122_1400_1422_4180,
    0x8244_2800_2844_8201,
    0x0488_5000_5088_0402,
    0x0810_a000_a010_0804,
    0x1020_4000_4020_1008,
    0x0402_0002_0408_1020,
    0x0805_0005_0810_2040,
    0x110a_000a_1120_4080,
    0x2214_0014_2241_8000,
    0x4428_0028_4482_0100,
    0x8850_0050_8804_0201,
    0x10a0_00a0_1008_0402,
    0x2040_0040_2010_0804,
    0x0200_0204_0810_2040,
    0x0500_0508_1020_4080,
    0x0a00_0a11_2040_8000,
    0x1400_1422_4180_0000,
    0x2800_2844_8201_0000,
    0x5000_5088_0402_0100,
    0xa000_a010_0804_0201,
    0x4000_4020_1008_0402,
    0x0002_0408_1020_4080,
    0x0005_0810_2040_8000,
    0x000a_1120_4080_0000,
    0x0014_2241_8000_0000,
    0x0028_4482_0100_0000,
    0x0050_8804_0201_0000,
    0x00a0_1008_0402_0100,
    0x0040_2010_0804_0201,
];
