//! Filters that read a game's tags and its result.
ghost use Rattle.std.specs.Prelude.{◌≡◌, ◌≤◌, ◌+◌, ◌-◌, ◌*◌, fold, length, true};
ghost use Rattle.std.specs.List.{list_all};
ghost use Rattle.std.specs.Char.{is_ascii_digit};
ghost use Rattle.cql_syntax.specs.Headers as spec;

use crate::numbers::greater;
use cq_position::GameResult;
use cql_syntax::{Field, Of, Outcome};
use memchr::memmem;
use pgn_tree::Game;

/// Returns true if a text is part of the value of the field's tag: the event, the site, or a player's name. `Of::Either` takes both
/// players.
pub fn has_text(game: &Game, field: Field, text: &[u8]) -> bool
    ensures { result ≡ spec.has_text game.now field text.now }
{
    match field {
        Field::Player(Of::White) => is_part(text, tag(game, b"White")),
        Field::Player(Of::Black) => is_part(text, tag(game, b"Black")),
        Field::Player(Of::Either) => {
            is_part(text, tag(game, b"White")) || is_part(text, tag(game, b"Black"))
        }
        Field::Event => is_part(text, tag(game, b"Event")),
        Field::Site => is_part(text, tag(game, b"Site")),
    }
}

// True if a text is in another from some byte on.
fn is_part(text: &[u8], whole: &[u8]) -> bool
    ensures { result ≡ spec.is_part_of text.now whole.now }
{
    memmem::find(whole, text).is_some()
}

// The value of a tag. A missing tag has the empty text.
fn tag<'a>(game: &'a Game, name: &[u8]) -> &'a [u8]
    ensures { result.now ≡ spec.tag game.now name.now }
{
    game.tags().get(name).unwrap_or(b"")
}

/// Returns true if the result of a game is the one of the filter.
pub fn is_result(outcome: Outcome, ending: GameResult) -> bool
    ensures { result ≡ spec.is_result outcome ending }
{
    matches!(
        (outcome, ending),
        (Outcome::White, GameResult::White)
            | (Outcome::Black, GameResult::Black)
            | (Outcome::Draw, GameResult::Draw)
            | (Outcome::Unfinished, GameResult::Open)
    )
}

/// Returns the year of the game: the first four bytes of its date, if they are digits.
pub fn year(game: &Game) -> Option<i64>
    ensures { result ≡ spec.year game.now }
{
    let date = tag(game, b"Date");
    if date.len() < 4 {
        return None;
    }
    number_in(4, &date[..4])
}

/// Returns a player's rating, or the greater of both. A rating has one to nine digits.
pub fn rating(game: &Game, of: Of) -> Option<i64>
    ensures { result ≡ spec.rating game.now of }
{
    match of {
        Of::White => number_in(9, tag(game, b"WhiteElo")),
        Of::Black => number_in(9, tag(game, b"BlackElo")),
        Of::Either => greater(
            number_in(9, tag(game, b"WhiteElo")),
            number_in(9, tag(game, b"BlackElo")),
        ),
    }
}

// The number that a text writes, if it has at least one and at most `most` bytes, all of them digits.
fn number_in(most: usize, text: &[u8]) -> Option<i64>
    requires { most ≤ 9 }
    ensures { result ≡ spec.number_in most text.now }
{
    if text.is_empty() || text.len() > most || !is_all_digits(text) {
        return None;
    }
    Some(i64::from(number_of(text)))
}

fn is_all_digits(text: &[u8]) -> bool
    ensures { result ≡ list_all is_ascii_digit text.now }
{
    text.iter().all(|b| b.is_ascii_digit())
}

// The number that up to nine digits write.
fn number_of(text: &[u8]) -> u32
    requires few { length text.now ≤ 9 }
    requires digits { list_all is_ascii_digit text.now ≡ true }
    ensures { result ≡ fold (λ n b. n * 10 + (b - 48)) 0 text.now }
{
    let mut number = 0;
    for digit in text {
        number = number * 10 + u32::from(*digit - b'0');
    }
    number
}
