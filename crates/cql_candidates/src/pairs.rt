//! Two names of which one attacks the other: removes squares of the one that attack no square of the other.
ghost use Rattle.std.specs.Prelude.{◌≡◌, ◌⊎◌, ℕ, ◌∷◌, [], length, true, false};
ghost use Rattle.std.specs.Str.{bytes_eq};
ghost use Rattle.cql_syntax.specs.Meaning as meaning;
ghost use Rattle.cql_syntax.specs.TreeOf.{filter_tree, filters_tree};
ghost use Rattle.cql_syntax.specs.Values as spec;
ghost use Rattle.cq_position.specs.Games.{node_at};
ghost use Rattle.cql_columns.specs.Columns.{IsNodeSet};
ghost use Rattle.cql_columns.specs.Scopes.{tree_in, value_with, values_with};
ghost use Rattle.cql_values.specs.FilterForms.{GivesOnlyName};
ghost use Rattle.cql_candidates.specs.Pairs.{LeavesPaired};

use crate::covers::retain_attackers;
use crate::independent::converse;
use cql_columns::filter_column::FilterColumn;
use cql_columns::scope::Scope;
use cql_syntax::{Chain, Filter, Filters, Form, Pair};
use cql_values::filter_forms::{gives_only_name, is_attack, is_conjunction};

/// Squares of a name, tried beside those of another name, which are among a column's.
#[derive(Clone, Copy)]
pub struct PairTrial<'a> {
    pub scope: &'a Scope<'a>,
    /// The nodes at which the filter is evaluated.
    pub live: &'a [bool],
    pub name: &'a [u8],
    pub other: &'a [u8],
    pub column: &'a FilterColumn,
}

/// Returns true if a filter can hold only when one of two names attacks the other. Not all forms are looked into, and a wrong result costs
/// time alone.
#[cycle(tests_attack_pair)]
pub fn tests_attack_pair(name: &[u8], other: &[u8], asked: &Filter) -> bool {
    match &asked.form {
        Form::Chain(chain, parts) => is_conjunction(*chain) && some_pair(name, other, parts),
        Form::Square(_, _, _, part) => tests_attack_pair(name, other, part),
        Form::Pair(pair, first, second) => {
            is_attack(*pair)
                && (each_gives_only_name(name, first, other, second)
                    || each_gives_only_name(other, first, name, second))
        }
        _ => false,
    }
}

#[cycle(tests_attack_pair)]
fn some_pair(name: &[u8], other: &[u8], parts: &Filters) -> bool {
    for part in parts.as_slice() {
        if tests_attack_pair(name, other, part) {
            return true;
        }
    }
    false
}

/// Keeps those squares of a name with which a filter may hold, while the square of another name is among a column's.
#[cycle(retain_paired)]
#[tactic(auto, unfolding(cql_syntax::specs::Meaning::value))]
pub fn retain_paired(sets: &mut [u64], paired: &PairTrial, asked: &Filter)
    requires asked { IsNodeSet (tree_in paired.now.scope.now) paired.now.live.now }
    requires count { length sets.old ≡ length paired.now.live.now }
    ensures cut { LeavesPaired paired.now
        (value_with paired.now.scope.now (filter_tree asked.now)) sets.old sets.new }
    ensures len { length sets.new ≡ length sets.old }
{
    match &asked.form {
        Form::Chain(chain, parts) => {
            cut_chain(sets, paired, *chain, parts);
        }
        Form::Square(every, third, _, part) => {
            let third = third.as_slice();
            cut_third(sets, paired, *every, third, part);
        }
        Form::Pair(pair, first, second) => {
            cut_pair(sets, paired, *pair, first, second);
        }
        _ => {}
    }
}

// Keeps the squares for a chain whose filters must all hold; keeps all for another chain.
#[cycle(retain_paired)]
fn cut_chain(sets: &mut [u64], paired: &PairTrial, chain: Chain, parts: &Filters)
    requires asked { IsNodeSet (tree_in paired.now.scope.now) paired.now.live.now }
    requires count { length sets.old ≡ length paired.now.live.now }
    ensures cut { LeavesPaired paired.now
        (λ e n. spec.chain_of chain (values_with paired.now.scope.now (filters_tree parts.now) e n)) sets.old sets.new }
    ensures len { length sets.new ≡ length sets.old }
{
    if !is_conjunction(chain) {
        return;
    }
    cut_each(sets, paired, parts);
}

// Keeps the squares for filters that must all hold.
#[cycle(retain_paired)]
fn cut_each(sets: &mut [u64], paired: &PairTrial, parts: &Filters)
    requires asked { IsNodeSet (tree_in paired.now.scope.now) paired.now.live.now }
    requires count { length sets.old ≡ length paired.now.live.now }
    ensures cut { LeavesPaired paired.now
        (λ e n. spec.all_hold (values_with paired.now.scope.now (filters_tree parts.now) e n)) sets.old sets.new }
    ensures len { length sets.new ≡ length sets.old }
{
    for part in parts.as_slice() {
        retain_paired(sets, paired, part);
    }
}

// Keeps the squares for a filter on some square under a third name, with any value of that name.
#[cycle(retain_paired)]
fn cut_third(sets: &mut [u64], paired: &PairTrial, every: bool, third: &[u8], part: &Filter)
    requires asked { IsNodeSet (tree_in paired.now.scope.now) paired.now.live.now }
    requires count { length sets.old ≡ length paired.now.live.now }
    ensures cut { (x : meaning.Names → ℕ → spec.Value) → LeavesPaired paired.now
        (λ e n. spec.square_of every (x e n)
        (λ s. spec.holds (value_with paired.now.scope.now (filter_tree part.now) ((third.now, s) ∷ e) n))) sets.old sets.new }
    ensures len { length sets.new ≡ length sets.old }
{
    if !is_third(every, third, paired.name, paired.other) {
        return;
    }
    retain_paired(sets, paired, part);
}

// Keeps the squares for two sets: one has no square but that of the one name, the other none but that of the other name.
fn cut_pair(sets: &mut [u64], paired: &PairTrial, pair: Pair, first: &Filter, second: &Filter)
    requires asked { IsNodeSet (tree_in paired.now.scope.now) paired.now.live.now }
    requires count { length sets.old ≡ length paired.now.live.now }
    ensures cut { LeavesPaired paired.now
        (λ e n. spec.pair_of (node_at paired.now.scope.now.game.now.nodes n).position.men pair
        (value_with paired.now.scope.now (filter_tree first.now) e n)
        (value_with paired.now.scope.now (filter_tree second.now) e n)) sets.old sets.new }
    ensures len { length sets.new ≡ length sets.old }
{
    if !is_attack(pair) {
        return;
    }
    if each_gives_only_name(paired.name, first, paired.other, second) {
        retain_attackers(sets, paired.live, paired.scope, pair, paired.column);
        return;
    }
    if each_gives_only_name(paired.other, first, paired.name, second) {
        retain_attackers(
            sets,
            paired.live,
            paired.scope,
            converse(pair),
            paired.column,
        );
    }
}

// Returns true only if a filter gives no square but that of a name, and another none but that of another name.
fn each_gives_only_name(name: &[u8], first: &Filter, other: &[u8], second: &Filter) -> bool
    ensures first { result ≡ true → GivesOnlyName name.now (λ tree e n. meaning.value tree [] e (filter_tree first.now) n) }
    ensures second { result ≡ true → GivesOnlyName other.now (λ tree e n. meaning.value tree [] e (filter_tree second.now) n) }
{
    gives_only_name(name, first) && gives_only_name(other, second)
}

// Returns true only if a `square` filter is about some square, not every one, and its name differs from two others.
fn is_third(every: bool, third: &[u8], name: &[u8], other: &[u8]) -> bool
    ensures some { result ≡ true → every ≡ false }
    ensures first { result ≡ true → bytes_eq third.now name.now ≡ false }
    ensures second { result ≡ true → bytes_eq third.now other.now ≡ false }
{
    !every && third != name && third != other
}
