//! The men of a FEN text.
ghost use Rattle.std.specs.Prelude.{◌≡◌, ◌∷◌, false, MatchOption};
ghost use Rattle.std.specs.Option.{option_copied};
ghost use Rattle.cq_position.specs.Fen.{parts, is_rank, is_rank_byte, rank_squares, is_placement, placed_men};
ghost use Rattle.cq_position.specs.FenBytes.{slash};
ghost use Rattle.cq_position.specs.Reading.{SomeIfTrue, IsRunOf, ranks_left};

use crate::fen::bytes::SLASH;
use crate::fen::fields::place_of;
use crate::men::{Man, man_of_letter};

/// The men of the squares a1, b1, .. h8 from the text of eight ranks (PGN standard, section 16.1.3.1). The ranks go from the eighth down,
/// with a slash between two.
///
/// Returns None for another number of ranks, and for a rank without exactly eight squares. Also returns None for a byte that is neither a
/// digit from 1 to 8 nor a man's letter.
pub fn read_placement(text: &[u8]) -> Option<[Man; 64]>
    ensures { SomeIfTrue result (is_placement text.now) (placed_men text.now) }
{
    let mut men = [Man::Empty; 64];
    let mut rest = Some(text);
    for done in 0..8 {
        let (first, left) = cut_rank(rest?);
        let row = read_rank(first)?;
        let from = 56 - 8 * done;
        men[from..from + 8].copy_from_slice(&row);
        rest = left;
    }
    match rest {
        Some(_) => None,
        None => Some(men),
    }
}

// The text of the first rank, and the text after its slash if there is one.
#[tactic(auto, using(crate::proofs::Splitting::one_part, crate::proofs::Splitting::first_of_parts, std::proofs::lemmas::List::take_rest))]
fn cut_rank(text: &[u8]) -> (&[u8], Option<&[u8]>)
    ensures { parts slash text.now ≡ result.0.now ∷ ranks_left (option_copied result.1) }
{
    match place_of(text, SLASH) {
        None => (text, None),
        Some(end) => (&text[..end], Some(&text[end + 1..])),
    }
}

// The eight squares of a rank, from the a-file on.
fn read_rank(text: &[u8]) -> Option<[Man; 8]>
    ensures { SomeIfTrue result (is_rank text.now) (rank_squares text.now) }
{
    let mut row = [Man::Empty; 8];
    let mut file = 0;
    for byte in text {
        let (man, width) = run_of(*byte)?;
        if width > 8 - file {
            return None;
        }
        row[file] = man;
        file += width;
    }
    if file == 8 { Some(row) } else { None }
}

// The man that a byte means, or the empty square, and the number of such squares.
fn run_of(byte: u8) -> Option<(Man, usize)>
    ensures { MatchOption result (is_rank_byte byte ≡ false) (λ run. IsRunOf byte run.0 run.1) }
{
    match byte {
        b'1'..=b'8' => Some((Man::Empty, usize::from(byte - b'0'))),
        _ => Some((man_of_letter(byte)?, 1)),
    }
}
