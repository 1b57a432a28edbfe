//! The words of a comment.
ghost use Rattle.std.specs.Prelude.{◌≡◌, ◌<◌, ℕ, [], ◌∷◌, ◌++◌, drop, length, OnOk, IfOk, IfSome, MatchOption, not, position};
ghost use Rattle.cq_common.specs.Text.{is_white};
ghost use Rattle.std.specs.List.{join_with_byte};
ghost use Rattle.cq_position.specs.Comments.{words};
ghost use Rattle.pgn_tree.specs.Words.{space, without_brace, without_braces, Begins};

use cq_common::{Bytes, NoMemory, is_white};
use std::alloc::Global;

/// Returns the comment that a node keeps of a text: its words with single spaces between them, and closing parentheses
/// for closing braces. A text without words has no comment, and gives no bytes.
///
/// # Errors
///
/// Fails only if out of memory.
pub fn single_spaced(alloc: Global, comment: &[u8]) -> Result<Bytes, NoMemory>
    ensures { IfOk result (λ spaced. spaced ≡ join_with_byte space (words (without_braces comment.now))) }
{
    let mut spaced = Vec::new(alloc);
    push_words(&mut spaced, comment)?;
    Ok(Bytes::from_vec(spaced))
}

/// Adds the words of a comment to a text, with single spaces between them, and closing parentheses for closing braces.
///
/// # Errors
///
/// Fails only if out of memory. A part of the words may then be in the text.
pub fn push_words(text: &mut Vec<u8>, comment: &[u8]) -> Result<(), NoMemory>
    ensures ok { OnOk result (text.new.items ≡ text.old.items ++ join_with_byte space (words (without_braces comment.now))) }
    ensures front { Begins text.old.items text.new.items }
{
    let Some((word, rest)) = first_word(comment) else {
        return Ok(());
    };
    push_word(text, word)?;
    let mut rest = rest;
    while let Some((word, later)) = first_word(rest) {
        push_next_word(text, word)?;
        rest = later;
    }
    Ok(())
}

/// Returns the first word of a text, which white space ends, and the rest of the text after it. None if the text has no
/// word.
#[tactic(auto, using(crate::proofs::Words::white_alone, crate::proofs::Words::first_of_words, crate::proofs::Words::shorter_after, crate::proofs::Words::cut_here, std::proofs::lemmas::List::take_rest))]
pub fn first_word(text: &[u8]) -> Option<(&[u8], &[u8])>
    ensures words { MatchOption result (words text.now ≡ []) (λ cut. words text.now ≡ cut.0.now ∷ words cut.1.now) }
    ensures cut { IfSome result (λ cut. (k : ℕ) × (drop k text.now ≡ cut.0.now ++ cut.1.now)) }
    ensures shorter { IfSome result (λ cut. length cut.1.now < length text.now) }
{
    let start = first_non_white(text)?;
    let text = &text[start..];
    let end = first_white(text).unwrap_or(text.len());
    Some((&text[..end], &text[end..]))
}

// The place of the first byte that is no white space.
fn first_non_white(text: &[u8]) -> Option<usize>
    ensures { result ≡ position (λ b. not (is_white b)) text.now }
{
    text.iter().position(|b| !is_white(*b))
}

// The place of the first byte of white space.
fn first_white(text: &[u8]) -> Option<usize>
    ensures { result ≡ position is_white text.now }
{
    text.iter().position(|b| is_white(*b))
}

// Adds a word after a space.
fn push_next_word(text: &mut Vec<u8>, word: &[u8]) -> Result<(), NoMemory>
    ensures ok { OnOk result (text.new.items ≡ text.old.items ++ space ∷ without_braces word.now) }
    ensures front { Begins text.old.items text.new.items }
{
    text.push(b' ')?;
    push_word(text, word)
}

// Adds a word.
fn push_word(text: &mut Vec<u8>, word: &[u8]) -> Result<(), NoMemory>
    ensures ok { OnOk result (text.new.items ≡ text.old.items ++ without_braces word.now) }
    ensures front { Begins text.old.items text.new.items }
{
    for b in word.iter() {
        text.push(without_brace(*b))?;
    }
    Ok(())
}

// A byte of a comment. A closing brace would end the comment, and becomes a closing parenthesis.
fn without_brace(b: u8) -> u8
    ensures { result ≡ without_brace b }
{
    if b == b'}' { b')' } else { b }
}
