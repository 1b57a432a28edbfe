//! Laws of the text of a game as JSON, for all texts, or for all games that fulfil the invariant of `Game`; a call changes nothing.
ghost use Rattle.std.specs.Prelude.{◌≡◌, ◌<◌, ◌^◌, ℕ, true, List, All, length};
ghost use Rattle.std.specs.Str.{encode_utf8_all, IsUtf8};
ghost use Rattle.cq_position.specs.Games.{Game as PlainGame, node_at};
ghost use Rattle.pgn_json.specs.GameValue.{json_of};
ghost use Rattle.pgn_json.specs.Grammar.{IsReadAs, IsReadAsValue};
ghost use Rattle.pgn_json.specs.Json.{game_text, json_text};
ghost use Rattle.pgn_json.specs.GameConditions.{AreBytes, HasByteTexts, HasValidNodes};
ghost use Rattle.pgn_json.specs.GameReading.{decoded_game};
ghost use Rattle.pgn_json.specs.Strings.{characters, string_text};

use pgn_tree::{Game, Tags};

/// The string of a text is the UTF-8 of one that JSON reads as the characters of the text, and as no others.
#[tactic(auto, using(crate::proofs::ReadBack::read_back))]
pub fn strings_are_read_back()
    ensures { (text : List ℕ) → (json : List ℕ) × (encode_utf8_all json ≡ string_text text) × IsReadAs json (characters text) }
{}

/// Always true: the nodes of every `Game` fulfil the conditions of the laws of lines.
pub fn games_have_valid_nodes(game: &Game) -> bool
    ensures value { result ≡ true }
    ensures kept { HasValidNodes game.now.nodes }
{
    prove!(game.is_tree());
    prove!(game.position(0).is_position());
    true
}

/// Always true: the tags and comments of every `Game` are lists of bytes.
pub fn texts_are_bytes(game: &Game) -> bool
    ensures value { result ≡ true }
    ensures texts { HasByteTexts game.now }
{
    prove!(tags_are_bytes(game.tags()));
    for k in 0..game.len() {
        prove!(comments_are_bytes(game, k));
    }
    true
}

/// A line without its LF is JSON, for numbers and first bytes below 2^64. It is read as the value of its game, and as no other value of the
/// kinds of `specs/Data`.
pub fn lines_are_json()
    ensures { (mark : List ℕ) (number byte : ℕ) (g : PlainGame) → HasValidNodes g.nodes → HasByteTexts g → number < 2 ^ 64 → byte < 2 ^ 64 →
        IsReadAsValue (game_text mark number byte g) (json_of mark number byte g) }
{}

/// A line is UTF-8, for numbers and first bytes below 2^64.
pub fn lines_are_utf8()
    ensures { (mark : List ℕ) (number byte : ℕ) (g : PlainGame) → HasValidNodes g.nodes → HasByteTexts g → number < 2 ^ 64 → byte < 2 ^ 64 →
        IsUtf8 (json_text mark number byte g) }
{}

/// Two lines, for numbers and first bytes below 2^64, are the same, whatever their marks, only if their games agree. They have the same
/// number and first byte, the same result, and the same tags and nodes. Only the bytes that spell the characters of tags and comments may
/// differ.
pub fn same_lines_have_the_same_game()
    ensures { (mark other_mark : List ℕ) (number other_number byte other_byte : ℕ) (g h : PlainGame) →
        HasValidNodes g.nodes → HasValidNodes h.nodes →
        number < 2 ^ 64 → other_number < 2 ^ 64 → byte < 2 ^ 64 → other_byte < 2 ^ 64 →
        json_text mark number byte g ≡ json_text other_mark other_number other_byte h →
        (number ≡ other_number) × (byte ≡ other_byte) × (decoded_game g ≡ decoded_game h) }
{}

// The names and values of tags are of bytes.
fn tags_are_bytes(tags: &Tags) -> bool
    ensures value { result ≡ true }
    ensures bytes { All (λ t. AreBytes t.0 × AreBytes t.1) tags.now }
{
    for i in 0..tags.len() {
        prove!(is_bytes(tags.name(i)));
        prove!(is_bytes(tags.value(i)));
    }
    true
}

// The comments of a node are of bytes.
fn comments_are_bytes(game: &Game, k: u32) -> bool
    requires { k < length game.now.nodes }
    ensures value { result ≡ true }
    ensures bytes { All AreBytes (node_at game.now.nodes k).comments }
{
    for i in 0..game.comments(k) {
        prove!(is_bytes(game.comment(k, i)));
    }
    true
}

// A text is of bytes.
fn is_bytes(text: &[u8]) -> bool
    ensures value { result ≡ true }
    ensures bytes { AreBytes text.now }
{
    true
}
