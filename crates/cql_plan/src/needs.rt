//! The needs of a query, tested on a game.
ghost use Rattle.std.specs.Prelude.{◌≡◌, ◌<◌, ◌&&◌, length};
ghost use Rattle.cq_position.specs.Games as games;
ghost use Rattle.cq_position.specs.Games.{node_at};
ghost use Rattle.cq_position.specs.Men.{man_number};
ghost use Rattle.cq_position.specs.Search.{has_man as stands_in, has_man_in};
ghost use Rattle.cq_symmetry.specs.Images.{is_in};
ghost use Rattle.cql_syntax.specs.TreeOf.{filter_tree, filters_tree};
ghost use Rattle.cql_values.specs.Trees.{searched_tree};
ghost use Rattle.cql_plan.specs.Needs as spec;

use cq_position::{Man, Position};
use cql_syntax::{Chain, Designator, Filter, Filters, Form, Kind};
use cql_values::headers::{has_text, is_result};
use cql_values::walks::is_searched;
use cql_values::words::has_man;
use pgn_tree::Game;

/// Returns true if a game has the needs of all items of a query. Its positions are looked at only if men are needed, each up to the
/// first that has one of them. It allocates no memory.
pub(crate) fn all_needed(items: &Filters, variations: bool, game: &Game) -> bool
    ensures { result ≡ spec.all_pass (searched_tree game.now variations) (filters_tree items.now) }
{
    let look = GameUnderTest { game, variations };
    all_pass(items, &look)
}

// A game under test: its tags and result, and its searched positions.
#[derive(Drop)]
struct GameUnderTest<'a> {
    game: &'a Game,
    variations: bool,
}

#[cycle(needs)]
#[tactic(auto, unfolding(crate::specs::Needs::passes))]
fn passes(f: &Filter, look: &GameUnderTest) -> bool
    ensures { result ≡ spec.passes (searched_tree look.now.game.now look.now.variations) (filter_tree f.now) }
{
    match &f.form {
        Form::Outcome(outcome) => is_result(*outcome, look.game.result()),
        Form::Tagged(field, text) => has_text(look.game, *field, text.as_slice()),
        Form::Squares(designator) => one_stands(designator, look),
        Form::Chain(Chain::And | Chain::All | Chain::Intersect, parts) => all_pass(parts, look),
        Form::Chain(Chain::Or | Chain::Union, parts)
        | Form::Any(Kind::Position | Kind::Set, parts) => some_passes(parts, look),
        _ => true,
    }
}

#[cycle(needs)]
#[tactic(auto, unfolding(crate::specs::Needs::passes))]
fn all_pass(filters: &Filters, look: &GameUnderTest) -> bool
    ensures { result ≡ spec.all_pass (searched_tree look.now.game.now look.now.variations) (filters_tree filters.now) }
{
    for filter in filters.as_slice() {
        if !passes(filter, look) {
            return false;
        }
    }
    true
}

#[cycle(needs)]
#[tactic(auto, unfolding(crate::specs::Needs::passes))]
fn some_passes(filters: &Filters, look: &GameUnderTest) -> bool
    ensures { result ≡ spec.some_passes (searched_tree look.now.game.now look.now.variations) (filters_tree filters.now) }
{
    for filter in filters.as_slice() {
        if passes(filter, look) {
            return true;
        }
    }
    false
}

// Returns true if one of a designator's men is on a square of some searched position, or the empty square is among them.
fn one_stands(designator: &Designator, look: &GameUnderTest) -> bool
    ensures { result ≡ spec.designator_passes (searched_tree look.now.game.now look.now.variations) designator.now.men }
{
    if has_man(designator.men, Man::Empty) {
        return true;
    }
    some_stands(designator.men, look)
}

// The number of kinds of men. The empty square is after them in the list.
const MAN_KINDS: usize = 12;

// Returns true if one of some men is on a square of a searched position.
fn some_stands(men: u16, look: &GameUnderTest) -> bool
    ensures { result ≡ spec.one_stands (searched_tree look.now.game.now look.now.variations) men }
{
    for man in &Man::ALL[..MAN_KINDS] {
        if needed_stands(men, *man, look) {
            return true;
        }
    }
    false
}

fn needed_stands(men: u16, man: Man, look: &GameUnderTest) -> bool
    ensures { result ≡ (is_in men (man_number man)
        && has_man_in (searched_tree look.now.game.now look.now.variations) (man_number man)) }
{
    has_man(men, man) && stands(man, look)
}

// Returns true if a man is on a square of a searched position. Positions after the first that has it are not looked at.
fn stands(man: Man, look: &GameUnderTest) -> bool
    ensures { result ≡ has_man_in (searched_tree look.now.game.now look.now.variations) (man_number man) }
{
    for k in 0..look.game.len() {
        if stands_at(man, look, k) {
            return true;
        }
    }
    false
}

fn stands_at(man: Man, look: &GameUnderTest, k: u32) -> bool
    requires { k < length look.now.game.now.nodes }
    ensures { result ≡ (games.is_searched look.now.variations look.now.game.now.nodes k
        && stands_in (node_at look.now.game.now.nodes k).position (man_number man)) }
{
    is_searched(look.game, look.variations, k) && stands_on(look.game.position(k), man)
}

fn stands_on(position: &Position, man: Man) -> bool
    ensures { result ≡ stands_in position.now (man_number man) }
{
    position.men().squares_of(man) != 0
}
