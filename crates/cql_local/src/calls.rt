//! The public functions.
ghost use Rattle.std.specs.Prelude.{◌≡◌, ◌<◌, ◌∷◌, [], length, IfOk, IfSome};
ghost use Rattle.cql_local.specs.NodeScopes.{tree_of};
ghost use Rattle.cql_syntax.specs.Meaning as meaning;
ghost use Rattle.cql_syntax.specs.TreeOf.{filter_tree};
ghost use Rattle.cql_syntax.specs.Values as spec;
ghost use Rattle.cql_values.specs.ValueModel.{as_value};

use crate::evaluate::square_at;
use crate::local_cost::{is_cheap, is_moved};
use crate::node_scope::GameNode;
use cq_common::{NoMemory, Refusal};
use cql_syntax::Filter;
use cql_values::names::Names;
use cql_values::value::Value;
use pgn_tree::Game;

/// Returns the truth of a condition with the name bound to each square of a set, at one of the game's nodes. With `every` it must hold for
/// every square, else for some.
///
/// The result is `None` if the value depends on a filter that is not local: a line, a family, a sum, `find` downwards, `*`, `max`, `min`,
/// `terminal`, `ply` or `depth`. Only the names take memory.
///
/// # Errors
///
/// `NoMemory` if out of memory.
pub fn local_square_truth(
    every: bool,
    name: &[u8],
    squares: Value,
    asked: &Filter,
    place: &GameNode,
    names: &mut Names,
) -> Result<Option<bool>, NoMemory>
    requires { place.now.node < length place.now.game.now.nodes }
    ensures value { IfOk result (λ found. IfSome found (λ b. spec.as_truth b ≡ spec.square_of every (as_value squares)
        (λ s. spec.holds (meaning.value (tree_of place.now) [] ((name.now, s) ∷ names.old) (filter_tree asked.now) place.now.node)))) }
    ensures names { names.new ≡ names.old }
{
    // A game's nodes are a tree.
    prove!(place.game.is_tree());
    match square_at(every, name, squares.squares(), asked, place, names) {
        Ok(holds) => Ok(Some(holds)),
        Err(Refusal::Fault(_)) => Ok(None),
        Err(Refusal::NoMemory) => Err(NoMemory),
    }
}

/// The greatest number of nodes of a game in which the nodes above each node are searched, one by one.
const MOST_NODES: u32 = 1_024;

/// Returns true if a condition on every square, or on some, can be evaluated node by node, and cheaply in this game. The result is an
/// estimate, and no contract depends on it. The nodes above a node are searched only if few squares are candidates there.
pub fn is_cheap_locally(every: bool, name: &[u8], asked: &Filter, game: &Game) -> bool {
    is_cheap(
        asked,
        game.len() <= MOST_NODES && is_moved(every, name, asked),
    )
}
