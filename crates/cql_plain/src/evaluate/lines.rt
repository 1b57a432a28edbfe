//! The value of a line at a node.
ghost use Rattle.std.specs.Prelude.{◌≡◌, ◌<◌, ◌≤◌, ◌+◌, ◌&&◌, length, get_or, Some, None, IfOk};
ghost use Rattle.cq_common.specs.Spelling.{one, repeated};
ghost use Rattle.cq_position.specs.Games.{IsTree};
ghost use Rattle.cql_syntax.specs.Meaning as meaning;
ghost use Rattle.cql_syntax.specs.TreeOf.{body_tree, filter_tree, line_tree, parts_tree};
ghost use Rattle.cql_syntax.specs.Values as spec;
ghost use Rattle.cql_plain.specs.Internal.LineParts.{EndsOf, least_times, most_times};
ghost use Rattle.cql_plain.specs.Internal.Paths.{AreSteps, comes_from as goes_from};
ghost use Rattle.cql_plain.specs.Internal.Scopes.{tree_in, value_in};
ghost use Rattle.cql_values.specs.ValueModel.{as_value};

use super::evaluate;
use crate::path_places::{comes_from, fresh, has_some, only_first, where_counted, with_next};
use crate::paths::{PathStep, longest, number_of, paths_from};
use crate::scope::Scope;
use cq_common::NoMemory;
use cql_syntax::{Body, Constituents, Filter, Line, Mark};
use cql_values::value::Value;
use std::alloc::Global;

/// Returns the greatest length of a path from a node that a line's pattern spells.
#[cycle(evaluate)]
#[tactic(auto, unfolding(cql_syntax::specs::Meaning::value))]
pub(super) fn line_at(
    alloc: Global,
    line: &Line,
    scope: &Scope,
    node: u32,
) -> Result<Value, NoMemory>
    requires tree { IsTree scope.now.game.now.nodes }
    requires node { node < length scope.now.game.now.nodes }
    ensures { IfOk result (λ v. as_value v ≡ meaning.line_value
        (tree_in scope.now) scope.now.context.now scope.now.names.now (line_tree line.now) node) }
{
    let steps = paths_from(
        alloc,
        scope.game,
        scope.variations,
        line.back,
        line.primary,
        node,
    )?;
    let starts = only_first(alloc, scope.game.len() as usize)?;
    let parts = &line.parts;
    let ends = parts_ends(alloc, parts, steps.as_slice(), starts.as_slice(), scope)?;
    Ok(number_of(longest(steps.as_slice(), ends.as_slice(), &line.extent)))
}

// The places at which parts in a row end.
#[cycle(evaluate)]
#[tactic(auto, unfolding(cql_syntax::specs::Meaning::value))]
fn parts_ends(
    alloc: Global,
    parts: &Constituents,
    steps: &[Option<PathStep>],
    starts: &[bool],
    scope: &Scope,
) -> Result<Vec<bool>, NoMemory>
    requires tree { IsTree scope.now.game.now.nodes }
    requires nodes { length steps.now ≡ length scope.now.game.now.nodes }
    requires steps { AreSteps steps.now }
    requires starts { length starts.now ≡ length steps.now + 1 }
    ensures { IfOk result (λ ends. EndsOf steps.now
        (meaning.pattern (tree_in scope.now) scope.now.context.now scope.now.names.now (parts_tree parts.now)) starts.now ends.items) }
{
    let mut places = where_counted(alloc, true, starts)?;
    for part in parts.as_slice() {
        let least = least_of(part.mark);
        let most = most_of(part.mark, steps.len() as u32);
        places = repeat(
            alloc,
            &part.body,
            least,
            most,
            steps,
            places.as_slice(),
            scope,
        )?;
    }
    Ok(places)
}

fn least_of(mark: Mark) -> u32
    ensures { result ≡ least_times mark }
{
    match mark {
        Mark::Once | Mark::Plus => 1,
        Mark::Star | Mark::Maybe => 0,
        Mark::Times(least, _) => least,
    }
}

fn most_of(mark: Mark, nodes: u32) -> u32
    requires { nodes ≤ 65536 }
    ensures { result ≡ most_times mark nodes }
{
    match mark {
        Mark::Once | Mark::Maybe => 1,
        Mark::Star => nodes,
        Mark::Plus => nodes + 1,
        Mark::Times(_, most) => most,
    }
}

// The places at which a part ends that occurs from `least` to `most` times in a row.
#[cycle(evaluate)]
fn repeat(
    alloc: Global,
    body: &Body,
    least: u32,
    most: u32,
    steps: &[Option<PathStep>],
    starts: &[bool],
    scope: &Scope,
) -> Result<Vec<bool>, NoMemory>
    requires tree { IsTree scope.now.game.now.nodes }
    requires nodes { length steps.now ≡ length scope.now.game.now.nodes }
    requires steps { AreSteps steps.now }
    requires starts { length starts.now ≡ length steps.now + 1 }
    ensures { IfOk result (λ ends. EndsOf steps.now (repeated least (Some most)
        (meaning.body_pattern (tree_in scope.now) scope.now.context.now scope.now.names.now (body_tree body.now))) starts.now ends.items) }
{
    let mut here = where_counted(alloc, true, starts)?;
    let mut ends = where_counted(alloc, least == 0, starts)?;
    for times in 0..most {
        if !has_some(&here) {
            return Ok(ends);
        }
        let next = body_ends(alloc, body, steps, &here, scope)?;
        here = fresh(alloc, least <= times + 1, &next, &ends)?;
        ends = with_next(alloc, least <= times + 1, &next, &ends)?;
    }
    Ok(ends)
}

// The places at which a part ends that occurs once.
#[cycle(evaluate)]
fn body_ends(
    alloc: Global,
    body: &Body,
    steps: &[Option<PathStep>],
    starts: &[bool],
    scope: &Scope,
) -> Result<Vec<bool>, NoMemory>
    requires tree { IsTree scope.now.game.now.nodes }
    requires nodes { length steps.now ≡ length scope.now.game.now.nodes }
    requires steps { AreSteps steps.now }
    requires starts { length starts.now ≡ length steps.now + 1 }
    ensures { IfOk result (λ ends. EndsOf steps.now
        (meaning.body_pattern (tree_in scope.now) scope.now.context.now scope.now.names.now (body_tree body.now)) starts.now ends.items) }
{
    match body {
        Body::Atom(filter) => { atom_ends(alloc, filter, steps, starts, scope) }
        Body::Group(parts) => { parts_ends(alloc, parts, steps, starts, scope) }
    }
}

// The places after those nodes at which a filter holds and to which a path goes on from some place.
#[cycle(evaluate)]
fn atom_ends(
    alloc: Global,
    filter: &Filter,
    steps: &[Option<PathStep>],
    starts: &[bool],
    scope: &Scope,
) -> Result<Vec<bool>, NoMemory>
    requires tree { IsTree scope.now.game.now.nodes }
    requires nodes { length steps.now ≡ length scope.now.game.now.nodes }
    requires steps { AreSteps steps.now }
    requires starts { length starts.now ≡ length steps.now + 1 }
    ensures { IfOk result (λ ends. EndsOf steps.now
        (one (value_in scope.now (filter_tree filter.now))) starts.now ends.items) }
{
    let mut ends = Vec::new(alloc);
    ends.push(false)?;
    for k in 0..scope.game.len() {
        let passes = passes(alloc, filter, steps, starts, k, scope)?;
        ends.push(passes)?;
    }
    Ok(ends)
}

// True if a path goes on from some place to node `k` and a filter holds there.
#[cycle(evaluate)]
fn passes(
    alloc: Global,
    filter: &Filter,
    steps: &[Option<PathStep>],
    starts: &[bool],
    k: u32,
    scope: &Scope,
) -> Result<bool, NoMemory>
    requires tree { IsTree scope.now.game.now.nodes }
    requires node { k < length scope.now.game.now.nodes }
    requires nodes { length steps.now ≡ length scope.now.game.now.nodes }
    requires steps { AreSteps steps.now }
    requires starts { length starts.now ≡ length steps.now + 1 }
    ensures { IfOk result (λ b. b ≡ (goes_from starts.now (get_or steps.now k None)
        && spec.holds (value_in scope.now (filter_tree filter.now) k))) }
{
    if !comes_from(starts, steps, k) {
        return Ok(false);
    }
    let value = evaluate(alloc, filter, scope, k)?;
    Ok(value.holds())
}
