//! The bytes of a FEN text (PGN standard, section 16.1.3).
ghost use Rattle.std.specs.Prelude.{◌≡◌};
ghost use Rattle.cq_position.specs.FenBytes as fen_bytes;

use crate::men::Side;

/// The byte between two fields.
pub const SPACE: u8 = b' ';

/// The byte between two ranks.
pub const SLASH: u8 = b'/';

/// The byte for no right to castle, and for no en passant square.
pub const DASH: u8 = b'-';

/// The letter of a side: `w` or `b` (section 16.1.3.2).
pub fn side_letter(side: Side) -> u8
    ensures { result ≡ fen_bytes.side_letter side }
{
    match side {
        Side::White => b'w',
        Side::Black => b'b',
    }
}

/// The letter of a side's right to castle: `K` or `k` on the king's side, and `Q` or `q` on the queen's (section 16.1.3.3).
pub fn right_letter(side: Side, kingside: bool) -> u8
    ensures { result ≡ fen_bytes.right_letter side kingside }
{
    match (side, kingside) {
        (Side::White, true) => b'K',
        (Side::White, false) => b'Q',
        (Side::Black, true) => b'k',
        (Side::Black, false) => b'q',
    }
}
