//! Pieces of the flat text.
ghost use Rattle.std.specs.Prelude.{◌≡◌, ◌++◌, ◌∷◌, [], ◌%◌, ◌<◌, IfOk, OnOk};
ghost use Rattle.std.specs.Fmt.{decimal};
ghost use Rattle.cql_rewrite.specs.FlatText as spec;
ghost use Rattle.cql_syntax.specs.Words.{word_text};
ghost use Rattle.cql_syntax.specs.declared.words.Word.TheVariants.{Comment, Elo, Result};

use crate::text_words::{arrow_word, field_word, line_word, outcome_word, whose_word};
use cq_common::{Bytes, NoMemory};
use cql_syntax::{Designator, Extent, Field, Mark, Of, Outcome, Sign, Word};
use std::alloc::Global;

/// A word and its parts in parentheses.
pub(crate) fn in_parens(alloc: Global, word: &[u8], parts: &[Bytes]) -> Result<Bytes, NoMemory>
    ensures { IfOk result (λ t. t ≡ spec.in_parens word.now parts.now) }
{
    let mut text = Bytes::from_slice(alloc, b"(")?;
    text.push_all(word)?;
    push_each(&mut text, b" ", parts)?;
    text.push_all(b")")?;
    Ok(text)
}

/// Adds texts, each after a mark.
pub(crate) fn push_each(text: &mut Bytes, mark: &[u8], more: &[Bytes]) -> Result<(), NoMemory>
    ensures { OnOk result (text.new ≡ text.old ++ spec.each_after mark.now more.now) }
{
    for part in more {
        push_both(text, mark, part.as_slice())?;
    }
    Ok(())
}

/// Adds two texts.
pub(crate) fn push_both(text: &mut Bytes, first: &[u8], second: &[u8]) -> Result<(), NoMemory>
    ensures { OnOk result (text.new ≡ text.old ++ (first.now ++ second.now)) }
{
    text.push_all(first)?;
    text.push_all(second)
}

/// A text between quotes.
pub(crate) fn quoted(alloc: Global, value: &Bytes) -> Result<Bytes, NoMemory>
    ensures { IfOk result (λ t. t ≡ spec.quoted value.now) }
{
    let mut text = Bytes::from_slice(alloc, b"\"")?;
    text.push_all(value.as_slice())?;
    text.push_all(b"\"")?;
    Ok(text)
}

/// A field of the game and its value.
pub(crate) fn tagged(alloc: Global, field: Field, value: &Bytes) -> Result<Bytes, NoMemory>
    ensures { IfOk result (λ t. t ≡ spec.in_parens (spec.field_word field) (spec.quoted value.now ∷ [])) }
{
    let word = field_word(alloc, field)?;
    let value = quoted(alloc, value)?;
    in_parens(alloc, word.as_slice(), &[value])
}

/// An outcome of the game.
pub(crate) fn outcome(alloc: Global, outcome: Outcome) -> Result<Bytes, NoMemory>
    ensures { IfOk result (λ t. t ≡ spec.in_parens (word_text Result) (spec.outcome_word outcome ∷ [])) }
{
    let outcome = Bytes::from_slice(alloc, outcome_word(outcome))?;
    in_parens(alloc, Word::Result.text(), &[outcome])
}

/// The rating of a player.
pub(crate) fn elo(alloc: Global, of: Of) -> Result<Bytes, NoMemory>
    ensures { IfOk result (λ t. t ≡ spec.in_parens (spec.whose_word Elo of) []) }
{
    let word = whose_word(alloc, Word::Elo, of)?;
    in_parens(alloc, word.as_slice(), &[])
}

/// A comment.
pub(crate) fn comment(alloc: Global, note: &Bytes) -> Result<Bytes, NoMemory>
    ensures { IfOk result (λ t. t ≡ spec.in_parens (word_text Comment) (spec.quoted note.now ∷ [])) }
{
    let note = quoted(alloc, note)?;
    in_parens(alloc, Word::Comment.text(), &[note])
}

/// The digits of a number.
pub(crate) fn number(alloc: Global, n: u32) -> Result<Bytes, NoMemory>
    ensures { IfOk result (λ t. t ≡ decimal n) }
{
    let mut text = Bytes::new(alloc);
    text.push_number(i64::from(n))?;
    Ok(text)
}

/// The text of a designator.
pub(crate) fn designator(alloc: Global, d: &Designator) -> Result<Bytes, NoMemory>
    ensures { IfOk result (λ t. t ≡ spec.designator_text d.now) }
{
    let mut text = Bytes::from_slice(alloc, b"[")?;
    push_letters(&mut text, d.men, b"KQRBNPkqrbnp_")?;
    text.push_all(b"]:")?;
    push_hexadecimal(&mut text, 16, d.part.squares)?;
    Ok(text)
}

// Adds those letters whose bits are set, the lowest bit's letter first.
fn push_letters(text: &mut Bytes, men: u16, letters: &[u8]) -> Result<(), NoMemory>
    ensures { OnOk result (text.new ≡ text.old ++ spec.letters_of men letters.now) }
{
    let mut bits = men;
    for letter in letters {
        push_letter(text, bits % 2 == 1, *letter)?;
        bits /= 2;
    }
    Ok(())
}

// Adds a letter, if its bit is set.
fn push_letter(text: &mut Bytes, there: bool, letter: u8) -> Result<(), NoMemory>
    ensures { OnOk result (text.new ≡ text.old ++ spec.letter_if there letter) }
{
    if there {
        return text.push_all(&[letter]);
    }
    Ok(())
}

// Adds the last so many hexadecimal digits of a number.
fn push_hexadecimal(text: &mut Bytes, count: u32, n: u64) -> Result<(), NoMemory>
    ensures { OnOk result (text.new ≡ text.old ++ spec.hexadecimal count n) }
{
    if count == 0 {
        return Ok(());
    }
    push_hexadecimal(text, count - 1, n / 16)?;
    push_digit(text, n)
}

// Adds the last hexadecimal digit of a number.
fn push_digit(text: &mut Bytes, n: u64) -> Result<(), NoMemory>
    ensures { OnOk result (text.new ≡ text.old ++ (spec.hexadecimal_digit (n % 16) ∷ [])) }
{
    let digit = hexadecimal_digit((n % 16) as u8);
    text.push_all(&[digit])
}

fn hexadecimal_digit(n: u8) -> u8
    requires { n < 16 }
    ensures { result ≡ spec.hexadecimal_digit n }
{
    b"0123456789abcdef"[usize::from(n)]
}

/// A part of a line with its mark.
pub(crate) fn marked(alloc: Global, mark: Mark, text: Bytes) -> Result<Bytes, NoMemory>
    ensures { IfOk result (λ t. t ≡ spec.marked_text mark text) }
{
    match mark {
        Mark::Once => Ok(text),
        Mark::Star => in_parens(alloc, Sign::Star.text(), &[text]),
        Mark::Plus => in_parens(alloc, Sign::Plus.text(), &[text]),
        Mark::Maybe => in_parens(alloc, Sign::Question.text(), &[text]),
        Mark::Times(least, most) => {
            let word = times_word(alloc, least, most)?;
            in_parens(alloc, word.as_slice(), &[text])
        }
    }
}

// `{m,n}`.
fn times_word(alloc: Global, least: u32, most: u32) -> Result<Bytes, NoMemory>
    ensures { IfOk result (λ t. t ≡ spec.times_word least most) }
{
    let mut text = Bytes::from_slice(alloc, b"{")?;
    text.push_number(i64::from(least))?;
    text.push_all(b",")?;
    text.push_number(i64::from(most))?;
    text.push_all(b"}")?;
    Ok(text)
}

/// The word of a line, its lengths if they are written, and its arrow.
pub(crate) fn line_start(
    alloc: Global,
    primary: bool,
    extent: &Extent,
    back: bool,
) -> Result<Bytes, NoMemory>
    ensures { IfOk result (λ t. t ≡ spec.line_start primary extent.now back) }
{
    let mut text = line_word(alloc, primary)?;
    text.push_all(b" ")?;
    match extent {
        Extent::Any => {
            text.push_all(arrow_word(back))?;
            Ok(text)
        }
        Extent::Within(least, most) => {
            text.push_number(i64::from(least.nodes()))?;
            text.push_all(b" ")?;
            text.push_number(i64::from(most.nodes()))?;
            text.push_all(b" ")?;
            text.push_all(arrow_word(back))?;
            Ok(text)
        }
    }
}

/// The filter of the move, given its parts.
pub(crate) fn in_move(
    alloc: Global,
    origin: Option<Bytes>,
    goal: Option<Bytes>,
    taken: Option<Bytes>,
    promoted: Option<Bytes>,
) -> Result<Bytes, NoMemory>
    ensures { IfOk result (λ t. t ≡ spec.in_move origin goal taken promoted) }
{
    let mut text = Bytes::from_slice(alloc, b"(")?;
    text.push_all(Word::Move.text())?;
    push_written(&mut text, Word::From, origin)?;
    push_written(&mut text, Word::To, goal)?;
    push_written(&mut text, Word::Capture, taken)?;
    push_written(&mut text, Word::Promote, promoted)?;
    text.push_all(b")")?;
    Ok(text)
}

// Adds a part after its word, if it is written.
fn push_written(text: &mut Bytes, word: Word, part: Option<Bytes>) -> Result<(), NoMemory>
    ensures { OnOk result (text.new ≡ text.old ++ spec.after_word word part) }
{
    match part {
        Some(part) => {
            push_both(text, b" ", word.text())?;
            push_both(text, b" ", part.as_slice())
        }
        None => Ok(()),
    }
}
