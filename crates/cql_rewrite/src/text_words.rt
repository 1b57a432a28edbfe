//! The words of forms in the flat text.
ghost use Rattle.std.specs.Prelude.{◌≡◌, IfOk};
ghost use Rattle.cql_rewrite.specs.FlatText as spec;

use cq_common::{Bytes, NoMemory};
use cql_syntax::{Chain, Field, Kind, Of, Outcome, Pair, Sign, Word};
use std::alloc::Global;

// Two words of the language.
fn two_words(alloc: Global, first: Word, second: Word) -> Result<Bytes, NoMemory>
    ensures { IfOk result (λ t. t ≡ spec.two_words first second) }
{
    let mut text = Bytes::from_slice(alloc, first.text())?;
    text.push_all(b" ")?;
    text.push_all(second.text())?;
    Ok(text)
}

pub(crate) fn outcome_word(outcome: Outcome) -> &'static [u8]
    ensures { result.now ≡ spec.outcome_word outcome }
{
    match outcome {
        Outcome::White => b"1-0",
        Outcome::Black => b"0-1",
        Outcome::Draw => b"1/2-1/2",
        Outcome::Unfinished => b"*",
    }
}

// A word, and the player whose value it is.
pub(crate) fn whose_word(alloc: Global, word: Word, of: Of) -> Result<Bytes, NoMemory>
    ensures { IfOk result (λ t. t ≡ spec.whose_word word of) }
{
    match of {
        Of::Either => Bytes::from_slice(alloc, word.text()),
        Of::White => two_words(alloc, word, Word::White),
        Of::Black => two_words(alloc, word, Word::Black),
    }
}

pub(crate) fn field_word(alloc: Global, field: Field) -> Result<Bytes, NoMemory>
    ensures { IfOk result (λ t. t ≡ spec.field_word field) }
{
    match field {
        Field::Player(of) => whose_word(alloc, Word::Player, of),
        Field::Event => Bytes::from_slice(alloc, Word::Event.text()),
        Field::Site => Bytes::from_slice(alloc, Word::Site.text()),
    }
}

pub(crate) fn chain_word(chain: Chain) -> &'static [u8]
    ensures { result.now ≡ spec.chain_word chain }
{
    match chain {
        Chain::Or => Word::Or.text(),
        Chain::And => Word::And.text(),
        Chain::All => Word::All.text(),
        Chain::Union => Sign::Bar.text(),
        Chain::Intersect => Sign::Ampersand.text(),
        Chain::Product => Sign::Star.text(),
        Chain::Max => Word::Max.text(),
        Chain::Min => Word::Min.text(),
    }
}

pub(crate) fn pair_word(pair: Pair) -> &'static [u8]
    ensures { result.now ≡ spec.pair_word pair }
{
    match pair {
        Pair::Attacks => Word::Attacks.text(),
        Pair::AttackedBy => Word::AttackedBy.text(),
        Pair::Between => Word::Between.text(),
        Pair::Less => Sign::Less.text(),
        Pair::AtMost => Sign::AtMost.text(),
        Pair::Equal => Sign::Equal.text(),
        Pair::AtLeast => Sign::AtLeast.text(),
        Pair::Greater => Sign::Greater.text(),
    }
}

pub(crate) fn any_word(kind: Kind) -> &'static [u8]
    ensures { result.now ≡ spec.any_word kind }
{
    match kind {
        Kind::Position => b"any",
        Kind::Set => b"union",
        Kind::Number => b"greatest",
    }
}

pub(crate) fn square_word(alloc: Global, every: bool) -> Result<Bytes, NoMemory>
    ensures { IfOk result (λ t. t ≡ spec.square_word every) }
{
    if every {
        return two_words(alloc, Word::Square, Word::All);
    }
    Bytes::from_slice(alloc, Word::Square.text())
}

pub(crate) fn sort_word(alloc: Global, least: bool) -> Result<Bytes, NoMemory>
    ensures { IfOk result (λ t. t ≡ spec.sort_word least) }
{
    if least {
        return two_words(alloc, Word::Sort, Word::Min);
    }
    Bytes::from_slice(alloc, Word::Sort.text())
}

pub(crate) fn line_word(alloc: Global, primary: bool) -> Result<Bytes, NoMemory>
    ensures { IfOk result (λ t. t ≡ spec.line_word primary) }
{
    if primary {
        return two_words(alloc, Word::Line, Word::Primary);
    }
    Bytes::from_slice(alloc, Word::Line.text())
}

pub(crate) fn arrow_word(back: bool) -> &'static [u8]
    ensures { result.now ≡ spec.arrow_word back }
{
    if back {
        return Sign::BackArrow.text();
    }
    Sign::Arrow.text()
}
