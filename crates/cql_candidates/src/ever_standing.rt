//! Filters that hold nowhere in a game, since their men are never on their squares.
ghost use Rattle.std.specs.Prelude.{◌≡◌, Bool, List, [], false, true, get_or, IfOk, OnOk};
ghost use Rattle.cq_position.specs.Search.{SearchedTree};
ghost use Rattle.cql_syntax.specs.Meaning.{Names, values};
ghost use Rattle.cql_syntax.specs.TreeOf.{filter_tree, filters_tree};
ghost use Rattle.cql_syntax.specs.Values.{all_hold, holds};
ghost use Rattle.cql_values.specs.ValueModel.{as_value};
ghost use Rattle.cql_values.specs.declared.value.Value.TheVariants.{Set};
ghost use Rattle.cql_columns.specs.SquareTrials.{CoverSquares};
ghost use Rattle.cql_columns.specs.Columns.{IsNodeSet, Where};
ghost use Rattle.cql_columns.specs.Scopes.{tree_in};
ghost use Rattle.cql_candidates.specs.Occupancy.{AreOccupancies, HoldsNowhere, IsOccupancy, men_on_any_square};
ghost use Rattle.cql_candidates.specs.Internal.Designators.{StandsNowhere};

use cq_common::NoMemory;
use cq_symmetry::SquarePart;
use cql_columns::filter_column::set_at;
use cql_columns::scope::Scope;
use cql_columns::standing_squares::standing_sets;
use cql_syntax::{Designator, Filter, Filters, Form};
use cql_values::filter_forms::is_conjunction;
use std::alloc::Global;

/// The squares of some men at the live nodes.
#[derive(Drop)]
pub struct Occupancy {
    /// Bit k is man k.
    pub men: u16,
    /// All squares on which they are at one of the nodes, and perhaps more.
    squares: u64,
    /// Their squares at each node.
    pub sets: Vec<u64>,
}

/// The conditions under which filters are evaluated.
#[derive(Clone, Copy)]
pub struct ImageScope<'a> {
    /// True if each filter must hold, false if each must not.
    pub want: bool,
    /// The squares of men of the filters, as far as they were gathered.
    pub occupancies: &'a [Occupancy],
    /// The classes of the filters: bit k is class k.
    pub classes: u32,
}

// The most sets of men whose squares are gathered.
const MOST_SETS_OF_MEN: usize = 8;

// The least number of filters for which gathering pays.
const MANY_FILTERS: usize = 8;

// The most filters whose men are gathered. Further ones mostly name the same men.
const SAMPLED_FILTERS: usize = 16;

/// Gathers the squares of men that some filters or their parts name, at each live node and over all of them. Nothing is gathered for few
/// filters, or if all must hold.
///
/// # Errors
///
/// `NoMemory` if out of memory.
pub fn occupancies_of(
    alloc: Global,
    want: bool,
    filters: &Filters,
    scope: &Scope,
    live: &[bool],
) -> Result<Vec<Occupancy>, NoMemory>
    requires asked { IsNodeSet (tree_in scope.now) live.now }
    ensures { IfOk result (λ occupancies. AreOccupancies (tree_in scope.now) live.now occupancies.items) }
{
    let mut occupancies = Vec::new(alloc);
    if want || filters.len() < MANY_FILTERS {
        return Ok(occupancies);
    }
    add_some(alloc, filters.as_slice(), scope, live, &mut occupancies)?;
    Ok(occupancies)
}

// Adds the squares for some of the filters, evenly from the first to the last.
fn add_some(
    alloc: Global,
    filters: &[Filter],
    scope: &Scope,
    live: &[bool],
    occupancies: &mut Vec<Occupancy>,
) -> Result<(), NoMemory>
    requires asked { IsNodeSet (tree_in scope.now) live.now }
    requires occupancies { AreOccupancies (tree_in scope.now) live.now occupancies.old.items }
    ensures { OnOk result (AreOccupancies (tree_in scope.now) live.now occupancies.new.items) }
{
    let step = filters.len() / SAMPLED_FILTERS + 1;
    for turn in 0..SAMPLED_FILTERS {
        add_at(
            alloc,
            filters,
            turn.saturating_mul(step),
            scope,
            live,
            occupancies,
        )?;
    }
    Ok(())
}

// Adds the squares for the filter with a number, if there is one.
fn add_at(
    alloc: Global,
    filters: &[Filter],
    number: usize,
    scope: &Scope,
    live: &[bool],
    occupancies: &mut Vec<Occupancy>,
) -> Result<(), NoMemory>
    requires asked { IsNodeSet (tree_in scope.now) live.now }
    requires occupancies { AreOccupancies (tree_in scope.now) live.now occupancies.old.items }
    ensures { OnOk result (AreOccupancies (tree_in scope.now) live.now occupancies.new.items) }
{
    match filters.get(number) {
        Some(filter) => add_filter(alloc, filter, scope, live, occupancies),
        None => Ok(()),
    }
}

#[cycle(add_filters)]
fn add_filters(
    alloc: Global,
    filters: &Filters,
    scope: &Scope,
    live: &[bool],
    occupancies: &mut Vec<Occupancy>,
) -> Result<(), NoMemory>
    requires asked { IsNodeSet (tree_in scope.now) live.now }
    requires occupancies { AreOccupancies (tree_in scope.now) live.now occupancies.old.items }
    ensures { OnOk result (AreOccupancies (tree_in scope.now) live.now occupancies.new.items) }
{
    for filter in filters.as_slice() {
        add_filter(alloc, filter, scope, live, occupancies)?;
    }
    Ok(())
}

#[cycle(add_filters)]
fn add_filter(
    alloc: Global,
    filter: &Filter,
    scope: &Scope,
    live: &[bool],
    occupancies: &mut Vec<Occupancy>,
) -> Result<(), NoMemory>
    requires asked { IsNodeSet (tree_in scope.now) live.now }
    requires occupancies { AreOccupancies (tree_in scope.now) live.now occupancies.old.items }
    ensures { OnOk result (AreOccupancies (tree_in scope.now) live.now occupancies.new.items) }
{
    match &filter.form {
        Form::Squares(d) => add_men(alloc, d.men, scope, live, occupancies),
        Form::Chain(chain, parts) if is_conjunction(*chain) => {
            add_filters(alloc, parts, scope, live, occupancies)
        }
        _ => Ok(()),
    }
}

fn add_men(
    alloc: Global,
    men: u16,
    scope: &Scope,
    live: &[bool],
    occupancies: &mut Vec<Occupancy>,
) -> Result<(), NoMemory>
    requires asked { IsNodeSet (tree_in scope.now) live.now }
    requires occupancies { AreOccupancies (tree_in scope.now) live.now occupancies.old.items }
    ensures { OnOk result (AreOccupancies (tree_in scope.now) live.now occupancies.new.items) }
{
    if occupancies.len() >= MOST_SETS_OF_MEN || is_known(occupancies, men) {
        return Ok(());
    }
    let ever = occupancy_of(alloc, men, scope, live)?;
    occupancies.push(ever)?;
    Ok(())
}

fn is_known(occupancies: &[Occupancy], men: u16) -> bool {
    occupancies.iter().any(|ever| ever.men == men)
}

// The squares of these men at the live nodes.
fn occupancy_of(
    alloc: Global,
    men: u16,
    scope: &Scope,
    live: &[bool],
) -> Result<Occupancy, NoMemory>
    requires asked { IsNodeSet (tree_in scope.now) live.now }
    ensures { IfOk result (IsOccupancy (tree_in scope.now) live.now) }
{
    let any_square = on_any_square(men);
    let sets = standing_sets(alloc, &any_square, scope, live)?;
    let squares = squares_in(live, &sets);
    Ok(Occupancy { men, squares, sets })
}

// All squares of the sets at the live nodes, and perhaps more.
fn squares_in(live: &[bool], sets: &[u64]) -> u64
    ensures { CoverSquares (λ n. as_value (Set (get_or sets.now n 0))) live.now result }
{
    let mut squares = 0;
    for n in 0..live.len() {
        squares |= set_at(sets, n);
    }
    squares
}

fn on_any_square(men: u16) -> Designator
    ensures { result ≡ men_on_any_square men }
{
    Designator {
        men,
        part: SquarePart {
            squares: u64::MAX,
            whole_ranks: false,
            whole_files: false,
        },
    }
}

/// Returns true only if filters must not hold, and this one holds nowhere.
pub fn fails_everywhere(image_scope: &ImageScope, filter: &Filter) -> bool
    ensures want { result ≡ true → image_scope.now.want ≡ false }
    ensures nowhere { result ≡ true → (tree : SearchedTree) (live : List Bool) (e : Names) → AreOccupancies tree live image_scope.now.occupancies.now
        → HoldsNowhere tree live e (filter_tree filter.now) }
{
    !image_scope.want && holds_nowhere(image_scope.occupancies, filter)
}

// Returns true only if a filter holds at none of the live nodes. It looks into designators, braces, and `and` with a part that holds
// nowhere. Other forms give false.
#[cycle(holds_nowhere)]
#[tactic(auto, unfolding(cql_syntax::specs::Meaning::value, cql_syntax::specs::Contexts::designator_image))]
fn holds_nowhere(occupancies: &[Occupancy], filter: &Filter) -> bool
    ensures { result ≡ true → (tree : SearchedTree) (live : List Bool) (e : Names) → AreOccupancies tree live occupancies.now
        → HoldsNowhere tree live e (filter_tree filter.now) }
{
    match &filter.form {
        Form::Squares(d) => stands_nowhere(occupancies, d),
        Form::Chain(chain, parts) => is_conjunction(*chain) && one_nowhere(occupancies, parts),
        _ => false,
    }
}

// Returns true only if one of some filters holds nowhere, so that they hold nowhere together.
#[cycle(holds_nowhere)]
fn one_nowhere(occupancies: &[Occupancy], parts: &Filters) -> bool
    ensures { result ≡ true → (tree : SearchedTree) (live : List Bool) (e : Names) → AreOccupancies tree live occupancies.now
        → Where live (λ n. holds (all_hold (values tree [] e (filters_tree parts.now) n)) ≡ false) }
{
    for part in parts.as_slice() {
        if holds_nowhere(occupancies, part) {
            return true;
        }
    }
    false
}

fn stands_nowhere(occupancies: &[Occupancy], d: &Designator) -> bool
    ensures { result ≡ true → (tree : SearchedTree) (live : List Bool) → AreOccupancies tree live occupancies.now → StandsNowhere tree live d.now }
{
    for ever in occupancies {
        if is_without(ever, d) {
            return true;
        }
    }
    false
}

// Returns true if the squares of exactly these men were gathered, and the designator names none of them.
fn is_without(ever: &Occupancy, d: &Designator) -> bool
    ensures { result ≡ true → (tree : SearchedTree) (live : List Bool) → IsOccupancy tree live ever.now → StandsNowhere tree live d.now }
{
    ever.men == d.men && ever.squares & d.part.squares == 0
}
