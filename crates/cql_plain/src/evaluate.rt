//! The value of a filter at a node, by recursion on the filter.
ghost use Rattle.std.specs.Prelude.{◌≡◌, ◌<◌, ◌∷◌, true, length, map, All, IfOk, OnOk, option_map, option_to_list, ◌++◌};
ghost use Rattle.cq_position.specs.Games.{IsTree};
ghost use Rattle.cq_symmetry.specs.Families.{members};
ghost use Rattle.cql_syntax.specs.Contexts as contexts;
ghost use Rattle.cql_syntax.specs.Headers as headers;
ghost use Rattle.cql_syntax.specs.Kinds.{filter_kind};
ghost use Rattle.cql_syntax.specs.Meaning as meaning;
ghost use Rattle.cql_syntax.specs.TreeOf.{filter_tree, filters_tree, terms_tree};
ghost use Rattle.cql_syntax.specs.Values as spec;
ghost use Rattle.cql_values.specs.FilterValues.{settles};
ghost use Rattle.cql_plain.specs.Internal.Members.{value_in_member, values_in_members};
ghost use Rattle.cql_values.specs.ValueModel.{as_value, terms_as_values};
ghost use Rattle.cql_plain.specs.Internal.Scopes.{tree_in, value_in, candidate_nodes};

mod lines;
mod played;

use crate::occupied_squares::occupied_squares;
use crate::scope::Scope;
use cq_common::NoMemory;
use cq_geometry::Square;
use cq_symmetry::{Family, Mapping, member, size as family_size};
use cql_images::contexts::{
    field_image, inside, of_image, outcome_image, unary_image, way_image, word_image,
};
use cql_images::fits::fits;
use cql_syntax::{Chain, Field, Filter, Filters, Form, Kind, Outcome, Terms, Unary, kind_of};
use cql_values::combine::{any_of, chain_of, if_of, pair_of, unary_of_value};
use cql_values::headers::{has_text, is_result, rating};
use cql_values::numbers::{count_value, total};
use cql_values::sets::{has_square, reached};
use cql_values::value::Value;
use cql_values::walks::{below, children, parents, way_up};
use cql_values::words::{directions, word_at};
use lines::line_at;
use played::played_at;
use std::alloc::Global;

/// Returns the value of a filter at a node.
#[cycle(evaluate)]
pub(crate) fn evaluate(
    alloc: Global,
    f: &Filter,
    scope: &Scope,
    node: u32,
) -> Result<Value, NoMemory>
    requires tree { IsTree scope.now.game.now.nodes }
    requires node { node < length scope.now.game.now.nodes }
    ensures { IfOk result (λ v. as_value v ≡ value_in scope.now (filter_tree f.now) node) }
{
    match &f.form {
        Form::Squares(d) => Ok(occupied_squares(scope.game.position(node), scope.context, d)),
        Form::Number(number) => Ok(count_value(*number)),
        Form::Name(name) => Ok(scope.names.squares_of(name.as_slice())),
        Form::Plain(word) => {
            let word = word_image(scope.context, *word);
            word_at(alloc, word, scope.game, scope.variations, node)
        }
        Form::Tagged(field, text) => Ok(tagged(*field, text.as_slice(), scope)),
        Form::Outcome(outcome) => Ok(ended(*outcome, scope)),
        Form::Elo(of) => Ok(Value::Number(rating(scope.game, of_image(scope.context, *of)))),
        Form::Unary(word, part) => {
            unary_at(alloc, unary_image(scope.context, *word), part, scope, node)
        }
        Form::Steps(way, m, n, part) => {
            let value = evaluate(alloc, part, scope, node)?;
            Ok(reached(directions(way_image(scope.context, *way)), *m, *n, value))
        }
        Form::Chain(chain, parts) => chain_at(alloc, *chain, parts, scope, node),
        Form::Sum(terms) => sum_at(alloc, terms, scope, node),
        Form::Pair(pair, first, second) => {
            let first = evaluate(alloc, first, scope, node)?;
            let second = evaluate(alloc, second, scope, node)?;
            Ok(pair_of(scope.game.position(node), *pair, first, second))
        }
        Form::If(condition, then, otherwise) => {
            let condition = evaluate(alloc, condition, scope, node)?;
            let then = evaluate(alloc, then, scope, node)?;
            let otherwise = evaluate(alloc, otherwise, scope, node)?;
            Ok(if_of(condition, then, otherwise))
        }
        Form::Square(every, name, squares, asked) => {
            let squares = evaluate(alloc, squares, scope, node)?;
            square_at(alloc, *every, name.as_slice(), squares, asked, scope, node)
        }
        Form::Line(line) => line_at(alloc, line, scope, node),
        Form::Played(played) => played_at(alloc, played, scope, node),
        Form::Transform(family, part) => family_value(alloc, *family, part, scope, node),
        Form::Sort(.., part) => {
            let value = evaluate(alloc, part, scope, node)?;
            Ok(Value::Truth(value.number().is_some()))
        }
        Form::Comment(_) => Ok(Value::Truth(true)),
        Form::Any(kind, parts) => any_at(alloc, *kind, parts, scope, node),
    }
}

// True if a text is part of the tag of a field, by the field's image in the context.
fn tagged(field: Field, text: &[u8], scope: &Scope) -> Value
    ensures { as_value result ≡ spec.as_truth
        (headers.has_text scope.now.game.now (contexts.field_image scope.now.context.now field) text.now) }
{
    let field = field_image(scope.context, field);
    Value::Truth(has_text(scope.game, field, text))
}

// True if the game's result is the one of the filter, by its image in the context.
fn ended(outcome: Outcome, scope: &Scope) -> Value
    ensures { as_value result ≡ spec.as_truth
        (headers.is_result (contexts.outcome_image scope.now.context.now outcome) scope.now.game.now.result) }
{
    let outcome = outcome_image(scope.context, outcome);
    Value::Truth(is_result(outcome, scope.game.result()))
}

// The value of a word or mark before a part.
#[cycle(evaluate)]
fn unary_at(
    alloc: Global,
    word: Unary,
    part: &Filter,
    scope: &Scope,
    node: u32,
) -> Result<Value, NoMemory>
    requires tree { IsTree scope.now.game.now.nodes }
    requires node { node < length scope.now.game.now.nodes }
    ensures { IfOk result (λ v. as_value v ≡ meaning.unary_of (tree_in scope.now) word (value_in scope.now (filter_tree part.now)) node) }
{
    match candidate_nodes(alloc, word, scope, node)? {
        Some(nodes) => some_node(alloc, part, scope, nodes.as_slice()),
        None => {
            let value = evaluate(alloc, part, scope, node)?;
            Ok(unary_of_value(word, scope.game.position(node), value))
        }
    }
}

// The nodes that a word searches, if it searches any.
fn candidate_nodes(
    alloc: Global,
    word: Unary,
    scope: &Scope,
    node: u32,
) -> Result<Option<Vec<u32>>, NoMemory>
    requires tree { IsTree scope.now.game.now.nodes }
    requires node { node < length scope.now.game.now.nodes }
    ensures { IfOk result (λ nodes. option_map (λ found. found.items) nodes ≡ candidate_nodes (tree_in scope.now) word node) }
{
    match word {
        Unary::Find => Ok(Some(below(alloc, scope.game, scope.variations, node)?)),
        Unary::FindUp => Ok(Some(way_up(alloc, scope.game, node)?)),
        Unary::Child => Ok(Some(children(alloc, scope.game, scope.variations, node)?)),
        Unary::Parent => Ok(Some(parents(alloc, scope.game, node)?)),
        _ => Ok(None),
    }
}

// True if a filter holds at one of some nodes.
#[cycle(evaluate)]
fn some_node(alloc: Global, part: &Filter, scope: &Scope, nodes: &[u32]) -> Result<Value, NoMemory>
    requires tree { IsTree scope.now.game.now.nodes }
    requires nodes { All (λ n. n < length scope.now.game.now.nodes) nodes.now }
    ensures { IfOk result (λ v. as_value v ≡ meaning.some_node (value_in scope.now (filter_tree part.now)) nodes.now) }
{
    for k in 0..nodes.len() {
        let value = evaluate(alloc, part, scope, nodes[k])?;
        if value.holds() {
            return Ok(Value::Truth(true));
        }
    }
    Ok(Value::Truth(false))
}

// The value of a chain.
#[cycle(evaluate)]
fn chain_at(
    alloc: Global,
    chain: Chain,
    parts: &Filters,
    scope: &Scope,
    node: u32,
) -> Result<Value, NoMemory>
    requires tree { IsTree scope.now.game.now.nodes }
    requires node { node < length scope.now.game.now.nodes }
    ensures { IfOk result (λ v. as_value v ≡ spec.chain_of chain
        (meaning.values (tree_in scope.now) scope.now.context.now scope.now.names.now (filters_tree parts.now) node)) }
{
    let values = values_at(alloc, parts, scope, node)?;
    Ok(chain_of(chain, values.as_slice()))
}

// The value of any of some filters of a kind.
#[cycle(evaluate)]
fn any_at(
    alloc: Global,
    kind: Kind,
    parts: &Filters,
    scope: &Scope,
    node: u32,
) -> Result<Value, NoMemory>
    requires tree { IsTree scope.now.game.now.nodes }
    requires node { node < length scope.now.game.now.nodes }
    ensures { IfOk result (λ v. as_value v ≡ spec.any_of kind
        (meaning.values (tree_in scope.now) scope.now.context.now scope.now.names.now (filters_tree parts.now) node)) }
{
    let values = values_at(alloc, parts, scope, node)?;
    Ok(any_of(kind, values.as_slice()))
}

// The value of a sum.
#[cycle(evaluate)]
fn sum_at(alloc: Global, terms: &Terms, scope: &Scope, node: u32) -> Result<Value, NoMemory>
    requires tree { IsTree scope.now.game.now.nodes }
    requires node { node < length scope.now.game.now.nodes }
    ensures { IfOk result (λ v. as_value v ≡ spec.total_of
        (meaning.term_values (tree_in scope.now) scope.now.context.now scope.now.names.now (terms_tree terms.now) node)) }
{
    let values = terms_at(alloc, terms, scope, node)?;
    Ok(total(values.as_slice()))
}

// The value of each of some filters.
#[cycle(evaluate)]
#[tactic(auto, unfolding(cql_syntax::specs::Meaning::value))]
fn values_at(
    alloc: Global,
    filters: &Filters,
    scope: &Scope,
    node: u32,
) -> Result<Vec<Value>, NoMemory>
    requires tree { IsTree scope.now.game.now.nodes }
    requires node { node < length scope.now.game.now.nodes }
    ensures { IfOk result (λ vs. map as_value vs.items
        ≡ meaning.values (tree_in scope.now) scope.now.context.now scope.now.names.now (filters_tree filters.now) node) }
{
    let mut values = Vec::new(alloc);
    for filter in filters.as_slice() {
        let value = evaluate(alloc, filter, scope, node)?;
        values.push(value)?;
    }
    Ok(values)
}

// The value of each term of a sum, with its flag, which is true if the term is subtracted.
#[cycle(evaluate)]
#[tactic(auto, unfolding(cql_syntax::specs::Meaning::value))]
fn terms_at(
    alloc: Global,
    terms: &Terms,
    scope: &Scope,
    node: u32,
) -> Result<Vec<(bool, Value)>, NoMemory>
    requires tree { IsTree scope.now.game.now.nodes }
    requires node { node < length scope.now.game.now.nodes }
    ensures { IfOk result (λ ts. terms_as_values ts.items
        ≡ meaning.term_values (tree_in scope.now) scope.now.context.now scope.now.names.now (terms_tree terms.now) node) }
{
    let mut values = Vec::new(alloc);
    for term in terms.as_slice() {
        let value = evaluate(alloc, &term.filter, scope, node)?;
        values.push((term.minus, value))?;
    }
    Ok(values)
}

// True if a condition holds for every square of a set, or for some.
#[cycle(evaluate)]
fn square_at(
    alloc: Global,
    every: bool,
    name: &[u8],
    squares: Value,
    asked: &Filter,
    scope: &Scope,
    node: u32,
) -> Result<Value, NoMemory>
    requires tree { IsTree scope.now.game.now.nodes }
    requires node { node < length scope.now.game.now.nodes }
    ensures { IfOk result (λ v. as_value v ≡ spec.square_of every (as_value squares)
        (λ s. spec.holds (meaning.value (tree_in scope.now) scope.now.context.now
        ((name.now, s) ∷ scope.now.names.now) (filter_tree asked.now) node))) }
{
    let set = squares.squares();
    for number in 0..64 {
        let square = Square::new(number);
        if has_square(set, square) && decides(alloc, every, name, square, asked, scope, node)? {
            return Ok(Value::Truth(!every));
        }
    }
    Ok(Value::Truth(every))
}

// True if a square settles a condition on every square, or on some.
#[cycle(evaluate)]
fn decides(
    alloc: Global,
    every: bool,
    name: &[u8],
    square: Square,
    asked: &Filter,
    scope: &Scope,
    node: u32,
) -> Result<bool, NoMemory>
    requires tree { IsTree scope.now.game.now.nodes }
    requires node { node < length scope.now.game.now.nodes }
    ensures { IfOk result (λ b. b ≡ settles every (λ s. true)
        (λ s. spec.holds (meaning.value (tree_in scope.now) scope.now.context.now
        ((name.now, s) ∷ scope.now.names.now) (filter_tree asked.now) node)) square) }
{
    let names = scope.names.with(alloc, name, square)?;
    let inner = Scope {
        names: &names,
        ..*scope
    };
    let value = evaluate(alloc, asked, &inner, node)?;
    Ok(value.holds() != every)
}

// The value of a filter inside of a mapping, if the filter fits there.
#[cycle(evaluate)]
fn member_value(
    alloc: Global,
    first: Mapping,
    part: &Filter,
    scope: &Scope,
    node: u32,
) -> Result<Option<Value>, NoMemory>
    requires tree { IsTree scope.now.game.now.nodes }
    requires node { node < length scope.now.game.now.nodes }
    ensures { IfOk result (λ v. option_map as_value v
        ≡ value_in_member (tree_in scope.now) scope.now.context.now scope.now.names.now first (filter_tree part.now) node) }
{
    let longer = inside(alloc, first, scope.context)?;
    if !fits(alloc, part, longer.as_slice())? {
        return Ok(None);
    }
    let inner = Scope {
        context: longer.as_slice(),
        ..*scope
    };
    let value = evaluate(alloc, part, &inner, node)?;
    Ok(Some(value))
}

// The value of a filter inside of each member of a family with which it fits.
#[cycle(evaluate)]
fn member_values(
    alloc: Global,
    family: Family,
    part: &Filter,
    scope: &Scope,
    node: u32,
) -> Result<Vec<Value>, NoMemory>
    requires tree { IsTree scope.now.game.now.nodes }
    requires node { node < length scope.now.game.now.nodes }
    ensures { IfOk result (λ vs. map as_value vs.items
        ≡ values_in_members (tree_in scope.now) scope.now.context.now scope.now.names.now (members family) (filter_tree part.now) node) }
{
    let mut values = Vec::new(alloc);
    for k in 0..family_size(family) {
        let value = member_value(alloc, member(family, k), part, scope, node)?;
        push_if_some(&mut values, value)?;
    }
    Ok(values)
}

// The value of a family, over the members with which its part fits: true if one holds, their union, or the greatest of them.
#[cycle(evaluate)]
fn family_value(
    alloc: Global,
    family: Family,
    part: &Filter,
    scope: &Scope,
    node: u32,
) -> Result<Value, NoMemory>
    requires tree { IsTree scope.now.game.now.nodes }
    requires node { node < length scope.now.game.now.nodes }
    ensures { IfOk result (λ v. as_value v ≡ spec.any_of (filter_kind (filter_tree part.now))
        (values_in_members (tree_in scope.now) scope.now.context.now scope.now.names.now (members family) (filter_tree part.now) node)) }
{
    let values = member_values(alloc, family, part, scope, node)?;
    Ok(any_of(kind_of(part), values.as_slice()))
}

// Adds a value if there is one.
fn push_if_some(values: &mut Vec<Value>, value: Option<Value>) -> Result<(), NoMemory>
    ensures { OnOk result (values.new.items ≡ values.old.items ++ option_to_list value) }
{
    if let Some(value) = value {
        values.push(value)?;
    }
    Ok(())
}
