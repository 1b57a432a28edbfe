//! The movetext of a game as words.
ghost use Rattle.std.specs.Prelude.{◌≡◌, ◌≢◌, ◌<◌, ◌≤◌, ◌+◌, ◌++◌, ◌∷◌, ◌||◌, [], ℕ, map, length, Some, OnOk, IfOk, IfSome, None, decimal};
ghost use Rattle.std.specs.List.{flat_map};
ghost use Rattle.std.specs.Option.{is_some};
ghost use Rattle.cq_position.specs.declared.moves.Move.{Move as MoveValue};
ghost use Rattle.cq_position.specs.Comments.{words as words_of};
ghost use Rattle.cq_position.specs.Games.{node_at, first_child, next_sibling};
ghost use Rattle.cq_position.specs.Legal.{Leads};
ghost use Rattle.cq_san.specs.Writing.{san_text};
ghost use Rattle.pgn_export.specs.Movetext as movetext;
ghost use Rattle.pgn_export.specs.Internal.Page.{with_word, with_words};
ghost use Rattle.pgn_export.specs.Internal.NodeWords.{words_to, words_after, words_instead_of, has_notes};
ghost use Rattle.pgn_export.specs.Words.{with_prefix, with_suffix, comment_words};

use crate::page::Page;
use cq_common::NoMemory;
use cq_position::{Move, Position, Side};
use cq_san::san_text_to;
use itoa::Buffer;
use pgn_tree::{Game, first_word, result_text};

/// Adds the words of a game's movetext.
pub(crate) fn write_movetext(page: &mut Page, game: &Game) -> Result<(), NoMemory>
    ensures { OnOk result (page.new ≡ with_words page.old (movetext.movetext game.now)) }
{
    prove!(game.is_tree());
    write_comments(page, game, 0)?;
    write_line(page, game, 0, true)?;
    page.push(result_text(game.result()))?;
    Ok(())
}

// Adds the words of the moves played after a node. `due` is true if the number of a move of Black is due.
#[cycle(writing)]
fn write_line(page: &mut Page, game: &Game, of: u32, due: bool) -> Result<(), NoMemory>
    requires { of < length game.now.nodes }
    ensures { OnOk result (page.new ≡ with_words page.old (words_after game.now.nodes due of)) }
{
    prove!(game.is_tree());
    let mut at = of;
    let mut due = due;
    while let Some(child) = child_of(game, at) {
        write_move(page, game, b"", at, child, due)?;
        write_variations(page, game, at, child)?;
        due = is_due_in_line(game, child);
        at = child;
    }
    Ok(())
}

// Adds the words of the variations that replace the move to a node, which was played after its parent.
#[cycle(writing)]
fn write_variations(page: &mut Page, game: &Game, parent: u32, beside: u32) -> Result<(), NoMemory>
    requires node { beside < length game.now.nodes }
    requires parent { (node_at game.now.nodes beside).parent ≡ Some parent }
    ensures { OnOk result (page.new ≡ with_words page.old (words_instead_of game.now.nodes parent beside)) }
{
    prove!(game.is_tree());
    let mut at = beside;
    while let Some(sibling) = sibling_of(game, parent, at) {
        write_move(page, game, b"(", parent, sibling, true)?;
        write_line(page, game, sibling, is_due(game, sibling))?;
        page.extend_last(b")")?;
        at = sibling;
    }
    Ok(())
}

// The first child of a node.
fn child_of(game: &Game, k: u32) -> Option<u32>
    requires { k < length game.now.nodes }
    ensures value { result ≡ first_child game.now.nodes k }
    ensures place { IfSome result (λ c. (k < c) × (c < length game.now.nodes) × ((node_at game.now.nodes c).parent ≡ Some k)) }
{
    prove!(game.is_tree());
    game.first_child(k)
}

// The next sibling of a node, which has the same parent.
fn sibling_of(game: &Game, parent: u32, k: u32) -> Option<u32>
    requires node { k < length game.now.nodes }
    requires parent { (node_at game.now.nodes k).parent ≡ Some parent }
    ensures value { result ≡ next_sibling game.now.nodes k }
    ensures place { IfSome result (λ c. (k < c) × (c < length game.now.nodes) × ((node_at game.now.nodes c).parent ≡ Some parent)) }
{
    prove!(game.is_tree());
    game.next_sibling(k)
}

// True if a number is due after a node in its line: after a glyph, a comment or a variation.
fn is_due_in_line(game: &Game, k: u32) -> bool
    requires { k < length game.now.nodes }
    ensures { result ≡ (has_notes (node_at game.now.nodes k) || is_some (next_sibling game.now.nodes k)) }
{
    is_due(game, k) || game.next_sibling(k).is_some()
}

// True if a number is due after a node without variations: after a glyph or a comment.
fn is_due(game: &Game, k: u32) -> bool
    requires { k < length game.now.nodes }
    ensures { result ≡ (has_notes (node_at game.now.nodes k)) }
{
    !game.nags(k).is_empty() || game.comments(k) > 0
}

// Adds the words of the move that led from its parent to a node, after a mark: its number, its text, its glyphs and its comments.
fn write_move(
    page: &mut Page,
    game: &Game,
    mark: &[u8],
    parent: u32,
    k: u32,
    due: bool,
) -> Result<(), NoMemory>
    requires node { k < length game.now.nodes }
    requires parent { (node_at game.now.nodes k).parent ≡ Some parent }
    ensures { OnOk result ((m : MoveValue) → (node_at game.now.nodes k).led_by ≡ Some m →
        page.new ≡ with_words page.old (with_prefix mark.now (words_to game.now.nodes due parent k m))) }
{
    prove!(game.is_tree());
    let Some(m) = game.move_to(k) else {
        return Ok(());
    };
    write_san(page, mark, game.position(parent), m, game.position(k), due)?;
    write_nags(page, game.nags(k))?;
    write_comments(page, game, k)
}

// Adds the words of a move's number and text, after a mark.
fn write_san(
    page: &mut Page,
    mark: &[u8],
    position: &Position,
    m: Move,
    after: &Position,
    due: bool,
) -> Result<(), NoMemory>
    requires { Leads position.now m after.now }
    ensures { OnOk result (page.new ≡ with_words page.old
        (with_prefix mark.now (movetext.number_words position.now.side due position.now.number ++ san_text position.now m ∷ []))) }
{
    let san = san_text_to(position, m, after);
    let number = position.number();
    match (position.side(), due) {
        (Side::White, _) => write_numbered(page, mark, number, b".", san.as_bytes()),
        (Side::Black, true) => write_numbered(page, mark, number, b"...", san.as_bytes()),
        (Side::Black, false) => page.push_joined(mark, san.as_bytes(), b""),
    }
}

// Adds the word of a number, between a mark and periods, and a word after it.
fn write_numbered(
    page: &mut Page,
    mark: &[u8],
    number: u32,
    periods: &[u8],
    word: &[u8],
) -> Result<(), NoMemory>
    ensures { OnOk result (page.new ≡ with_words page.old ((mark.now ++ (decimal number ++ periods.now)) ∷ word.now ∷ [])) }
{
    write_number(page, mark, number, periods)?;
    page.push(word)
}

// Adds the word of a number, between a mark and periods.
fn write_number(page: &mut Page, mark: &[u8], number: u32, periods: &[u8]) -> Result<(), NoMemory>
    ensures { OnOk result (page.new ≡ with_word page.old (mark.now ++ (decimal number ++ periods.now))) }
{
    page.push_joined(mark, Buffer::new().format(number).as_bytes(), periods)
}

// Adds the words of numeric annotation glyphs.
fn write_nags(page: &mut Page, nags: &[u8]) -> Result<(), NoMemory>
    ensures { OnOk result (page.new ≡ with_words page.old (map movetext.nag_word nags.now)) }
{
    for nag in nags {
        write_number(page, b"$", u32::from(*nag), b"")?;
    }
    Ok(())
}

// Adds the words of the comments of a node.
fn write_comments(page: &mut Page, game: &Game, k: u32) -> Result<(), NoMemory>
    requires { k < length game.now.nodes }
    ensures { OnOk result (page.new ≡ with_words page.old (flat_map comment_words (node_at game.now.nodes k).comments)) }
{
    for i in 0..game.comments(k) {
        write_comment(page, game.comment(k, i))?;
    }
    Ok(())
}

// Adds the words of a comment, the first after `{` and the last before `}`.
fn write_comment(page: &mut Page, text: &[u8]) -> Result<(), NoMemory>
    ensures { OnOk result (page.new ≡ with_words page.old (comment_words text.now)) }
{
    let Some((word, rest)) = first_word(text) else {
        return Ok(());
    };
    page.push_joined(b"{", word, b"")?;
    write_words(page, rest)?;
    page.extend_last(b"}")?;
    Ok(())
}

// Adds the words of a text.
fn write_words(page: &mut Page, text: &[u8]) -> Result<(), NoMemory>
    ensures { OnOk result (page.new ≡ with_words page.old (words_of text.now)) }
{
    let mut rest = text;
    while let Some((word, after)) = first_word(rest) {
        page.push(word)?;
        rest = after;
    }
    Ok(())
}
