//! The value of a filter at a node of a game, also by its kind.
ghost use Rattle.std.specs.Prelude.{◌≡◌, ◌<◌, length, IfOk};
ghost use Rattle.cq_position.specs.Search.{SearchedTree};
ghost use Rattle.cq_symmetry.specs.Images.{mask_of};
ghost use Rattle.cql_syntax.specs.Meaning.{value};
ghost use Rattle.cql_syntax.specs.TreeOf.{filter_tree};
ghost use Rattle.cql_syntax.specs.Values.{holds, has, amount};
ghost use Rattle.cql_values.specs.ValueModel.{as_value};
ghost use Rattle.cql_values.specs.Trees.{searched_tree};

use crate::evaluate::evaluate;
use crate::scope::Scope;
use cq_common::NoMemory;
use cq_symmetry::Mapping;
use cql_syntax::Filter;
use cql_values::names::Names;
use cql_values::value::Value;
use pgn_tree::Game;
use std::alloc::Global;

/// Returns the value of a filter at a node of a game. With `variations` these are searched, else the main line alone.
///
/// # Errors
///
/// `NoMemory` if out of memory.
pub fn value_at(
    alloc: Global,
    f: &Filter,
    game: &Game,
    variations: bool,
    node: u32,
    context: &[Mapping],
    names: &Names,
) -> Result<Value, NoMemory>
    requires { node < length game.now.nodes }
    ensures { IfOk result (λ v. as_value v ≡ value (searched_tree game.now variations) context.now names.now (filter_tree f.now) node) }
{
    // A game's nodes are a tree.
    prove!(game.is_tree());
    let scope = Scope {
        game,
        variations,
        context,
        names,
    };
    evaluate(alloc, f, &scope, node)
}

/// Returns true if a filter holds at a node of a game. A set holds if it has a square, and a number if it has a value. With `variations`
/// these are searched, else the main line alone.
///
/// The context is the list of the mappings inside of which the filter is evaluated, the innermost first. The filter of a name that isn't
/// bound is the empty set.
///
/// # Errors
///
/// `NoMemory` if out of memory.
pub fn holds_at(
    alloc: Global,
    f: &Filter,
    game: &Game,
    variations: bool,
    node: u32,
    context: &[Mapping],
    names: &Names,
) -> Result<bool, NoMemory>
    requires { node < length game.now.nodes }
    ensures { IfOk result (λ b. b ≡ holds (value (searched_tree game.now variations) context.now names.now (filter_tree f.now) node)) }
{
    let value = value_at(alloc, f, game, variations, node, context, names)?;
    Ok(value.holds())
}

/// Returns the squares of a filter at a node of a game. Bit k is square k. A filter that is no set has none.
///
/// # Errors
///
/// `NoMemory` if out of memory.
pub fn set_at(
    alloc: Global,
    f: &Filter,
    game: &Game,
    variations: bool,
    node: u32,
    context: &[Mapping],
    names: &Names,
) -> Result<u64, NoMemory>
    requires { node < length game.now.nodes }
    ensures { IfOk result (λ set. set
        ≡ mask_of (has (value (searched_tree game.now variations) context.now names.now (filter_tree f.now) node))) }
{
    let value = value_at(alloc, f, game, variations, node, context, names)?;
    Ok(value.squares())
}

/// Returns the number of a filter at a node of a game, if it has a value. A filter that is no number has none.
///
/// # Errors
///
/// `NoMemory` if out of memory.
pub fn number_at(
    alloc: Global,
    f: &Filter,
    game: &Game,
    variations: bool,
    node: u32,
    context: &[Mapping],
    names: &Names,
) -> Result<Option<i64>, NoMemory>
    requires { node < length game.now.nodes }
    ensures { IfOk result (λ n. n ≡ amount (value (searched_tree game.now variations) context.now names.now (filter_tree f.now) node)) }
{
    let value = value_at(alloc, f, game, variations, node, context, names)?;
    Ok(value.number())
}
