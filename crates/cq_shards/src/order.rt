//! The order of answers.
ghost use Rattle.std.specs.Prelude.{◌≡◌, [], ◌∷◌, filter, slice_get, All, AllPairs, IfOk, MatchOption};
ghost use Rattle.std.specs.List.Sorted.{IsPermutation};
ghost use Rattle.cql_syntax.specs.TreeOf.{filter_tree, filter_trees, query_tree};
ghost use Rattle.cq_shards.specs.Order.{AreOfDistinctGames, ComesBefore, HasKeys, IsEarlier, directions, filter_directions};
ghost use Rattle.cq_shards.specs.Order.{is_match as is_matching, keys_in};
ghost use Rattle.cq_shards.specs.Internal.Comparing.{answer_cmp, keys_cmp, value_cmp};

use crate::answers::{Answer, GameAnswer};
use cq_common::NoMemory;
use cql_syntax::{Filter, Form, Query};
use std::alloc::Global;
use std::cmp::Ordering;

/// The same answers in the order of their games, if no two are of one game.
///
/// # Errors
///
/// `NoMemory` if out of memory.
pub fn in_order(alloc: Global, answers: Vec<GameAnswer>) -> Result<Vec<GameAnswer>, NoMemory>
    ensures same { IfOk result (λ sorted. IsPermutation answers.items sorted.items) }
    ensures order { AreOfDistinctGames answers.items → IfOk result (λ sorted. AllPairs IsEarlier sorted.items) }
{
    let mut sorted = answers;
    sorted
        .as_mut_slice()
        .sort_by_key(alloc, |answer| answer.index)?;
    Ok(sorted)
}

/// The matches among the answers, by the sort items of the query: greater keys first, with `min` lesser keys first. The first item decides
/// before the second, and so on; equal keys are in the order of their games. No two answers may be of one game, and each match must have a
/// key for each sort item.
///
/// # Errors
///
/// `NoMemory` if out of memory.
pub fn by_keys(
    alloc: Global,
    answers: Vec<GameAnswer>,
    query: &Query,
) -> Result<Vec<GameAnswer>, NoMemory>
    ensures same { IfOk result (λ sorted. IsPermutation (filter is_matching answers.items) sorted.items) }
    ensures order { AreOfDistinctGames answers.items → All (HasKeys (directions (query_tree query.now).items)) answers.items
        → IfOk result (λ sorted. AllPairs (ComesBefore (directions (query_tree query.now).items)) sorted.items) }
{
    let least = item_directions(alloc, query.items.as_slice())?;
    let mut matches = answers;
    matches.retain(|answer| is_match(answer));
    matches
        .as_mut_slice()
        .sort_by(alloc, |a, b| compare(least.as_slice(), a, b))?;
    Ok(matches)
}

/// Returns true if an answer is a match.
pub(crate) fn is_match(answer: &GameAnswer) -> bool
    ensures { result ≡ is_matching answer.now }
{
    matches!(answer.what, Answer::Match { .. })
}

// For each `sort` among the items, true if the least value comes first.
fn item_directions(alloc: Global, items: &[Filter]) -> Result<Vec<bool>, NoMemory>
    ensures { IfOk result (λ found. found.items ≡ directions (filter_trees items.now)) }
{
    let mut found = Vec::new(alloc);
    for i in 0..items.len() {
        if let Some(least) = direction(&items[i]) {
            found.push(least)?;
        }
    }
    Ok(found)
}

// The direction of a `sort`: true if the least value comes first. Another filter has none.
fn direction(filter: &Filter) -> Option<bool>
    ensures { MatchOption result (filter_directions (filter_tree filter.now) ≡ [])
        (λ least. filter_directions (filter_tree filter.now) ≡ least ∷ []) }
{
    match &filter.form {
        Form::Sort(least, ..) => Some(*least),
        _ => None,
    }
}

fn compare(least: &[bool], a: &GameAnswer, b: &GameAnswer) -> Ordering
    ensures { result ≡ answer_cmp least.now a.now b.now }
{
    compare_keys(least, keys_of(a), keys_of(b)).then(a.index.cmp(&b.index))
}

// The keys of a match; another answer has none.
fn keys_of(answer: &GameAnswer) -> &[i64]
    ensures { result.now ≡ keys_in answer.now.what }
{
    match &answer.what {
        Answer::Match { keys, .. } => keys.as_slice(),
        Answer::Refused(_) | Answer::Miss => &[],
    }
}

// Compares by the first item at which the keys differ.
fn compare_keys(least: &[bool], xs: &[i64], ys: &[i64]) -> Ordering
    ensures { result ≡ keys_cmp 0 least.now xs.now ys.now }
{
    for i in 0..least.len() {
        let x = key_at(xs, i);
        let y = key_at(ys, i);
        let order = compare_values(least[i], x, y);
        if order.is_ne() {
            return order;
        }
    }
    Ordering::Equal
}

fn key_at(keys: &[i64], i: usize) -> Option<i64>
    ensures { result ≡ slice_get keys.now i }
{
    keys.get(i).copied()
}

fn compare_values(least: bool, x: Option<i64>, y: Option<i64>) -> Ordering
    ensures { result ≡ value_cmp least x y }
{
    if least { x.cmp(&y) } else { y.cmp(&x) }
}
