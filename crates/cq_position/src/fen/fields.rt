//! The fields of a FEN text.
ghost use Rattle.std.specs.Prelude.{◌≡◌, ◌==◌, [], ◌∷◌, not, position, MatchOption};
ghost use Rattle.cq_position.specs.Fen.{fields, field_texts};
ghost use Rattle.cq_position.specs.FenBytes.{space};
ghost use Rattle.cq_position.specs.Reading.{texts_of};

use crate::fen::bytes::SPACE;

/// The six fields of a text, each without spaces and not empty (PGN standard, section 16.1.3).
#[derive(Clone, Copy)]
pub struct Fields<'a> {
    /// The men, rank by rank from the eighth down (section 16.1.3.1).
    pub placement: &'a [u8],
    /// The side to move (section 16.1.3.2).
    pub side: &'a [u8],
    /// The rights to castle (section 16.1.3.3).
    pub castling: &'a [u8],
    /// The en passant square (section 16.1.3.4).
    pub passant: &'a [u8],
    /// The halfmove clock (section 16.1.3.5).
    pub clock: &'a [u8],
    /// The number of the move (section 16.1.3.6).
    pub number: &'a [u8],
}

/// The fields of a text with six or four fields, or None for any other count. Four are read as with the clock `0` and the number `1`.
pub fn split_fields(text: &[u8]) -> Option<Fields<'_>>
    ensures { MatchOption result (field_texts (fields text.now) ≡ None) (λ f. field_texts (fields text.now) ≡ Some (texts_of f)) }
{
    let (placement, rest) = first_field(text)?;
    let (side, rest) = first_field(rest)?;
    let (castling, rest) = first_field(rest)?;
    let (passant, rest) = first_field(rest)?;
    let Some((clock, rest)) = first_field(rest) else {
        return Some(Fields {
            placement,
            side,
            castling,
            passant,
            clock: b"0",
            number: b"1",
        });
    };
    let (number, rest) = first_field(rest)?;
    if first_field(rest).is_some() {
        return None;
    }
    Some(Fields {
        placement,
        side,
        castling,
        passant,
        clock,
        number,
    })
}

// The first field, and the text after it.
#[tactic(auto, using(crate::proofs::Splitting::spaces_alone, crate::proofs::Splitting::first_of_fields, std::proofs::lemmas::List::take_rest))]
fn first_field(text: &[u8]) -> Option<(&[u8], &[u8])>
    ensures { MatchOption result (fields text.now ≡ []) (λ cut. fields text.now ≡ cut.0.now ∷ fields cut.1.now) }
{
    let start = place_beside_spaces(text)?;
    let text = &text[start..];
    let end = place_of(text, SPACE).unwrap_or(text.len());
    Some((&text[..end], &text[end..]))
}

// The index of the first byte that is no space.
fn place_beside_spaces(text: &[u8]) -> Option<usize>
    ensures { result ≡ position (λ b. not (b == space)) text.now }
{
    text.iter().position(|b| *b != SPACE)
}

/// The first index of a byte in a text, from 0, or None if the text lacks it.
pub fn place_of(text: &[u8], byte: u8) -> Option<usize>
    ensures { result ≡ position (λ b. b == byte) text.now }
{
    text.iter().position(|b| *b == byte)
}
