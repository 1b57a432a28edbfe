//! Designators that are evaluated from lists of the squares of their men, without a look at a position.
ghost use Rattle.std.specs.Prelude.{◌≡◌, ◌&&◌, ℕ, Bool, List, [], length, true, get_or, bit_and, Some, IfOk, IfSome};
ghost use Rattle.std.specs.List.{list_all};
ghost use Rattle.cq_position.specs.Search.{SearchedTree};
ghost use Rattle.cql_syntax.specs.Meaning.{Names, position_at, standing_of, value, values};
ghost use Rattle.cql_syntax.specs.TreeOf.{filter_tree, filter_trees};
ghost use Rattle.cql_syntax.specs.Values.{holds};
ghost use Rattle.cql_values.specs.ValueModel.{as_value};
ghost use Rattle.cql_values.specs.declared.value.Value.TheVariants.{Set};
ghost use Rattle.cql_columns.specs.Columns.{AreKept, AreSets, Where, shown};
ghost use Rattle.cql_candidates.specs.Occupancy.{AreOccupancies, men_on_any_square};

use crate::ever_standing::{ImageScope, Occupancy};
use cq_common::NoMemory;
use cql_columns::filter_column::{FilterColumn, set_at};
use cql_columns::nodes::same;
use cql_columns::spans::{first_live, live_end};
use cql_syntax::{Designator, Filter, Form};
use cql_values::filter_forms::is_conjunction;
use cql_values::value::Value;
use std::alloc::Global;
use std::slice::from_ref;

/// Filters that all hold exactly if this one does.
#[tactic(auto, using(crate::proofs::OccupancyColumnLaw::one_holds))]
pub fn conjuncts(filter: &Filter) -> &[Filter]
    ensures { (tree : SearchedTree) (e : Names) (n : ℕ) → list_all holds (values tree [] e (filter_trees result.now) n)
        ≡ holds (value tree [] e (filter_tree filter.now) n) }
{
    match &filter.form {
        Form::Chain(chain, parts) if is_conjunction(*chain) => parts.as_slice(),
        _ => from_ref(filter),
    }
}

/// Returns the nodes at which all filters hold, if each is a designator of men whose squares were gathered; else `None`.
///
/// # Errors
///
/// `NoMemory` if out of memory.
pub fn occupancy_column(
    alloc: Global,
    image_scope: &ImageScope,
    parts: &[Filter],
    live: &[bool],
) -> Result<Option<FilterColumn>, NoMemory>
    ensures { IfOk result (λ told. IfSome told (λ c. (tree : SearchedTree) (e : Names) → AreOccupancies tree live.now image_scope.now.occupancies.now
        → Where live.now (λ n. holds (shown c n) ≡ list_all holds (values tree [] e (filter_trees parts.now) n)))) }
{
    if image_scope.occupancies.is_empty() {
        return Ok(None);
    }
    let mut held = same(alloc, live)?;
    let told = keep_all(&mut held, image_scope.occupancies, parts);
    if told {
        Ok(Some(FilterColumn::Truths(held)))
    } else {
        Ok(None)
    }
}

// Keeps the nodes of a set at which all filters hold. If it returns false, the squares of some men were not gathered, and the set has no
// use.
fn keep_all(held: &mut [bool], occupancies: &[Occupancy], parts: &[Filter]) -> bool
    ensures len { length held.new ≡ length held.old }
    ensures kept { result ≡ true → (tree : SearchedTree) (e : Names) → AreOccupancies tree held.old occupancies.now
        → AreKept (λ n. list_all holds (values tree [] e (filter_trees parts.now) n)) held.old held.new }
{
    for part in parts {
        if !keep_one(held, occupancies, part) {
            return false;
        }
    }
    true
}

fn keep_one(held: &mut [bool], occupancies: &[Occupancy], part: &Filter) -> bool
    ensures len { length held.new ≡ length held.old }
    ensures kept { result ≡ true → (tree : SearchedTree) (e : Names) → AreOccupancies tree held.old occupancies.now
        → AreKept (λ n. holds (value tree [] e (filter_tree part.now) n)) held.old held.new }
{
    match &part.form {
        Form::Squares(d) => keep_men(held, occupancies, d),
        _ => false,
    }
}

fn keep_men(held: &mut [bool], occupancies: &[Occupancy], d: &Designator) -> bool
    ensures len { length held.new ≡ length held.old }
    ensures kept { result ≡ true → (tree : SearchedTree) → AreOccupancies tree held.old occupancies.now
        → AreKept (λ n. holds (standing_of (position_at tree n).men (Some d.now))) held.old held.new }
{
    match sets_of(occupancies, d.men) {
        Some(sets) => {
            keep_meeting(held, sets, d.part.squares);
            true
        }
        None => false,
    }
}

// The squares of exactly these men at each node, if they were gathered.
fn sets_of(occupancies: &[Occupancy], men: u16) -> Option<&[u64]>
    ensures { IfSome result (λ sets. (tree : SearchedTree) (live : List Bool) → AreOccupancies tree live occupancies.now
        → AreSets sets.now live (λ n. standing_of (position_at tree n).men (Some (men_on_any_square men)))) }
{
    for ever in occupancies {
        if ever.men == men {
            return Some(ever.sets.as_slice());
        }
    }
    None
}

// Keeps the nodes at which one of the squares is in a set.
fn keep_meeting(held: &mut [bool], sets: &[u64], squares: u64)
    ensures { AreKept (λ n. holds (as_value (Set (bit_and (get_or sets.now n 0) squares)))) held.old held.new }
{
    for n in first_live(held)..live_end(held) {
        held[n] = kept_meeting(held[n], sets, squares, n);
    }
}

fn kept_meeting(asked: bool, sets: &[u64], squares: u64, n: usize) -> bool
    ensures { result ≡ (asked && holds (as_value (Set (bit_and (get_or sets.now n 0) squares)))) }
{
    asked && Value::Set(set_at(sets, n) & squares).holds()
}
