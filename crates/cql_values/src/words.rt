//! Filters without parts.
ghost use Rattle.std.specs.Prelude.{◌≡◌, ◌<◌, ◌^◌, ◌&&◌, ◌++◌, ◌∷◌, [], not, length, Bool, false, Some, is_some, IfOk, IfSome, OnOk, if◌then◌else◌};
ghost use Rattle.std.specs.List.{list_any};
ghost use Rattle.cq_position.specs.Games.{IsTree};
ghost use Rattle.cq_position.specs.Legality.{has_legal_move};
ghost use Rattle.cq_position.specs.Bitboards.{IsBitboard};
ghost use Rattle.cq_position.specs.Board.{man_at, stands};
ghost use Rattle.cq_position.specs.Men.{man_number};
ghost use Rattle.cq_symmetry.specs.Images.{is_in};
ghost use Rattle.cql_syntax.specs.Meaning as meaning;
ghost use Rattle.cql_values.specs.FilterValues.{AreMenOf, is_local};
ghost use Rattle.cql_values.specs.ValueModel.{as_value};
ghost use Rattle.cql_values.specs.Trees.{searched_tree};

use crate::headers::year;
use crate::numbers::count_value;
use crate::value::Value;
use crate::walks::{children, depth, ply};
use cq_common::NoMemory;
use cq_geometry::Compass;
use cq_moves::{is_mate, is_stalemate};
use cq_position::{Man, Men, Position, Side, in_check};
use cql_syntax::{Designator, Plain, Way};
use pgn_tree::Game;
use std::alloc::Global;

/// Returns the squares of a designator that have one of its men.
pub fn standing_on(position: &Position, d: &Designator) -> u64
    ensures { IsBitboard result (meaning.stands_on position.now.men (Some d.now)) }
{
    d.part.squares & squares_of_some(position.men(), d.men)
}

// The twelve men and the empty square.
const ALL_MEN: u16 = 0x1fff;

// The squares that have one of some men. Bit k is man k.
fn squares_of_some(men: &Men, wanted: u16) -> u64
    ensures { IsBitboard result (λ s. is_in wanted (man_number (man_at men.now s))) }
{
    if wanted & ALL_MEN == ALL_MEN {
        return u64::MAX;
    }
    squares_of_each(men, wanted & ALL_MEN)
}

// The same, man by man.
fn squares_of_each(men: &Men, wanted: u16) -> u64
    requires { wanted < 2 ^ 13 }
    ensures { IsBitboard result (λ s. is_in wanted (man_number (man_at men.now s))) }
{
    let mut mask = 0;
    let mut left = wanted;
    while left != 0 {
        let number = left.trailing_zeros();
        left &= !(1 << number);
        mask |= men.squares_of(man_numbered(number as usize));
    }
    mask
}

fn man_numbered(number: usize) -> Man
    requires { number < 13 }
    ensures { man_number result ≡ number }
{
    Man::ALL[number]
}

/// Returns the men of a set. Bit k is man k.
///
/// # Errors
///
/// `NoMemory` if out of memory.
pub fn listed_men(alloc: Global, wanted: u16) -> Result<Vec<Man>, NoMemory>
    ensures { IfOk result (λ listed. AreMenOf wanted listed.items) }
{
    let mut listed = Vec::new(alloc);
    for man in &Man::ALL {
        let there = has_man(wanted, *man);
        list_if(&mut listed, there, *man)?;
    }
    Ok(listed)
}

fn list_if(listed: &mut Vec<Man>, there: bool, man: Man) -> Result<(), NoMemory>
    ensures { OnOk result (listed.new.items ≡ listed.old.items ++ (if there then man ∷ [] else [])) }
{
    if there {
        listed.push(man)?;
    }
    Ok(())
}

/// Returns the squares of a designator that have one of its men, given the list of its men.
pub fn standing_of(position: &Position, d: &Designator, listed: &[Man]) -> u64
    requires { AreMenOf d.now.men listed.now }
    ensures { IsBitboard result (meaning.stands_on position.now.men (Some d.now)) }
{
    d.part.squares & squares_of_all(position.men(), listed)
}

fn squares_of_all(men: &Men, listed: &[Man]) -> u64
    ensures { IsBitboard result (λ s. list_any (stands men.now s) listed.now) }
{
    let mut mask = 0;
    for man in listed {
        mask |= men.squares_of(*man);
    }
    mask
}

/// Returns true if a set of men has a man. Bit k is man k.
#[inline]
pub fn has_man(men: u16, man: Man) -> bool
    ensures { result ≡ is_in men (man_number man) }
{
    men >> (man as u16) & 1 == 1
}

/// Returns the value of a filter that is one word.
///
/// # Errors
///
/// `NoMemory` if out of memory.
pub fn word_at(
    alloc: Global,
    word: Plain,
    game: &Game,
    variations: bool,
    n: u32,
) -> Result<Value, NoMemory>
    requires tree { IsTree game.now.nodes }
    requires node { n < length game.now.nodes }
    ensures { IfOk result (λ v. as_value v ≡ meaning.word_of (searched_tree game.now variations) word n) }
{
    match local_word(word, game, n) {
        Some(value) => Ok(value),
        None => wide_word(alloc, word, game, variations, n),
    }
}

/// Returns the value of a word that depends on one node alone. The result is `None` for `terminal`, `ply` and `depth`, which depend on
/// other nodes.
pub fn local_word(word: Plain, game: &Game, n: u32) -> Option<Value>
    requires { n < length game.now.nodes }
    ensures some { IfSome result (λ v. (variations : Bool) → as_value v ≡ meaning.word_of (searched_tree game.now variations) word n) }
    ensures none { is_some result ≡ is_local word }
{
    let position = game.position(n);
    match word {
        Plain::Check => Some(Value::Truth(in_check(position, position.side()))),
        Plain::Mate => Some(Value::Truth(is_mated(position))),
        Plain::Stalemate => Some(Value::Truth(is_stalemated(position))),
        Plain::Wtm => Some(Value::Truth(is_white(position.side()))),
        Plain::Btm => Some(Value::Truth(!is_white(position.side()))),
        Plain::Initial => Some(Value::Truth(n == 0)),
        Plain::Mainline => Some(Value::Truth(game.is_main(n))),
        Plain::Variation => Some(Value::Truth(!game.is_main(n))),
        Plain::HasComment => Some(Value::Truth(game.comments(n) != 0)),
        Plain::MoveNumber => Some(count_value(position.number())),
        Plain::Year => Some(Value::Number(year(game))),
        Plain::Terminal | Plain::Ply | Plain::Depth => None,
    }
}

// The value of a word that depends on other nodes.
fn wide_word(
    alloc: Global,
    word: Plain,
    game: &Game,
    variations: bool,
    n: u32,
) -> Result<Value, NoMemory>
    requires tree { IsTree game.now.nodes }
    requires node { n < length game.now.nodes }
    requires wide { is_local word ≡ false }
    ensures { IfOk result (λ v. as_value v ≡ meaning.word_of (searched_tree game.now variations) word n) }
{
    match word {
        Plain::Terminal => Ok(Value::Truth(children(alloc, game, variations, n)?.is_empty())),
        Plain::Ply => Ok(count_value(ply(alloc, game, n)?)),
        Plain::Depth => Ok(count_value(depth(alloc, game, n)?)),
        _ => unreachable!(),
    }
}

/// Returns true if the side to move is in check and has no legal move.
pub fn is_mated(position: &Position) -> bool
    ensures { result ≡ (meaning.is_check position.now && not (has_legal_move position.now)) }
{
    in_check(position, position.side()) && is_mate(position)
}

/// Returns true if the side to move is not in check and has no legal move.
pub fn is_stalemated(position: &Position) -> bool
    ensures { result ≡ (not (meaning.is_check position.now) && not (has_legal_move position.now)) }
{
    !in_check(position, position.side()) && is_stalemate(position)
}

/// Returns true if a side is White.
pub fn is_white(side: Side) -> bool
    ensures { result ≡ meaning.is_white side }
{
    matches!(side, Side::White)
}

/// Returns the directions of a word.
pub fn directions(way: Way) -> &'static [Compass]
    ensures { result.now ≡ meaning.directions_of way }
{
    match way {
        Way::Up => &[Compass::Up],
        Way::Down => &[Compass::Down],
        Way::Left => &[Compass::Left],
        Way::Right => &[Compass::Right],
        Way::Northeast => &[Compass::Northeast],
        Way::Northwest => &[Compass::Northwest],
        Way::Southeast => &[Compass::Southeast],
        Way::Southwest => &[Compass::Southwest],
        Way::Diagonal => &DIRECTIONS[4..],
        Way::Orthogonal => &DIRECTIONS[..4],
        Way::AnyDirection => &DIRECTIONS,
    }
}

const DIRECTIONS: [Compass; 8] = [
    Compass::Up,
    Compass::Down,
    Compass::Left,
    Compass::Right,
    Compass::Northeast,
    Compass::Northwest,
    Compass::Southeast,
    Compass::Southwest,
];
