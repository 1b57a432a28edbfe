//! Filters that test if a man on some square attacks one of a designator.
ghost use Rattle.std.specs.Prelude.{◌≡◌, true, false, IfSome};
ghost use Rattle.cql_syntax.specs.TreeOf.{filter_tree, filter_trees};
ghost use Rattle.cql_candidates.specs.NameAttacks.{TestsAttack, IsOnly};
ghost use Rattle.cql_candidates.specs.Internal.Designators.{IsDesignated};

use cql_syntax::{Chain, Designator, Filter, Form, Pair};
use cql_values::filter_forms::is_name;

/// Returns true only if a filter tests nothing but an attack: a man on the square bound to the name attacks one of a designator's squares.
pub fn is_only_attack_test(name: &[u8], asked: &Filter) -> bool {
    attacked_designator(false, name, asked).is_some()
}

/// Returns the designator if the filter tests, for some square, an attack of a man on it on one of the designator's squares.
pub fn attacked_designator<'a>(
    every: bool,
    name: &[u8],
    asked: &'a Filter,
) -> Option<&'a Designator>
    ensures some { IfSome result (λ d. every ≡ false) }
    ensures each { IfSome result (λ d. TestsAttack name.now d.now (filter_tree asked.now)) }
{
    if every {
        return None;
    }
    match &asked.form {
        Form::Chain(Chain::All, parts) => attacked_in_one(name, parts.as_slice()),
        _ => attacked_by_pair(name, asked),
    }
}

fn attacked_in_one<'a>(name: &[u8], parts: &'a [Filter]) -> Option<&'a Designator>
    ensures { IfSome result (λ d. IsOnly (TestsAttack name.now d.now) (filter_trees parts.now)) }
{
    if parts.len() == 1 {
        attacked_by_pair(name, &parts[0])
    } else {
        None
    }
}

fn attacked_by_pair<'a>(name: &[u8], asked: &'a Filter) -> Option<&'a Designator>
    ensures { IfSome result (λ d. TestsAttack name.now d.now (filter_tree asked.now)) }
{
    match &asked.form {
        Form::Pair(Pair::Attacks, first, second) => designated_if(is_name(name, first), second),
        _ => None,
    }
}

fn designated_if(wanted: bool, filter: &Filter) -> Option<&Designator>
    ensures wanted { IfSome result (λ d. wanted ≡ true) }
    ensures each { IfSome result (λ d. IsDesignated d.now (filter_tree filter.now)) }
{
    if !wanted {
        return None;
    }
    match &filter.form {
        Form::Squares(d) => Some(d),
        _ => None,
    }
}
