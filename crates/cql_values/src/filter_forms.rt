//! Forms of filters: attacks, chains, and filters that give no square but that of a name.
ghost use Rattle.std.specs.Prelude.{◌≡◌, ◌⊎◌, [], true};
ghost use Rattle.cql_syntax.specs.Meaning as meaning;
ghost use Rattle.cql_syntax.specs.Values as spec;
ghost use Rattle.cql_syntax.specs.TreeOf.{filter_tree, filters_tree, written_tree};
ghost use Rattle.cql_syntax.specs.declared.leaves.Chain.TheVariants.{Or, And, All, Intersect};
ghost use Rattle.cql_syntax.specs.declared.leaves.Pair.TheVariants.{Attacks, AttackedBy};
ghost use Rattle.cql_values.specs.FilterForms.{IsName, IsNamePart, GivesOnlyName, PartGivesOnlyName};

use cql_syntax::{Chain, Filter, Filters, Form, Pair};

/// Returns true only if a pair gives the squares of one set that attack the other set or are attacked by it.
pub fn is_attack(pair: Pair) -> bool
    ensures { result ≡ true → (pair ≡ Attacks) ⊎ (pair ≡ AttackedBy) }
{
    match pair {
        Pair::Attacks | Pair::AttackedBy => true,
        _ => false,
    }
}

/// Returns true only if a chain is the intersection of sets.
pub fn is_intersection(chain: Chain) -> bool
    ensures { result ≡ true → chain ≡ Intersect }
{
    match chain {
        Chain::Intersect => true,
        _ => false,
    }
}

/// Returns true only for a conjunction: all filters of the chain must hold.
pub fn is_conjunction(chain: Chain) -> bool
    ensures { result ≡ true → (chain ≡ And) ⊎ (chain ≡ All) }
{
    match chain {
        Chain::And | Chain::All => true,
        _ => false,
    }
}

/// Returns true only for a disjunction: one filter of the chain must hold.
pub fn is_disjunction(chain: Chain) -> bool
    ensures { result ≡ true → chain ≡ Or }
{
    match chain {
        Chain::Or => true,
        _ => false,
    }
}

/// Returns true only if a filter is a name.
pub fn is_name(name: &[u8], f: &Filter) -> bool
    ensures { result ≡ true → IsName name.now (filter_tree f.now) }
{
    match &f.form {
        Form::Name(text) => name == text.as_slice(),
        _ => false,
    }
}

/// Returns true only if a part is written, and is a name.
pub fn is_name_part(name: &[u8], part: &Option<Box<Filter>>) -> bool
    ensures { result ≡ true → IsNamePart name.now (written_tree part.now) }
{
    match part {
        Some(part) => is_name(name, part),
        None => false,
    }
}

/// Returns true only if a filter gives no square but the one that is bound to a name.
#[cycle(gives_only_name)]
#[tactic(auto, unfolding(cql_syntax::specs::Meaning::value))]
pub fn gives_only_name(name: &[u8], f: &Filter) -> bool
    ensures { result ≡ true → GivesOnlyName name.now (λ tree e n. meaning.value tree [] e (filter_tree f.now) n) }
{
    match &f.form {
        Form::Name(text) => text.as_slice() == name,
        Form::Chain(chain, parts) => is_intersection(*chain) && some_gives_only_name(name, parts),
        Form::Pair(pair, first, _) => is_attack(*pair) && gives_only_name(name, first),
        _ => false,
    }
}

/// Returns true only if an intersection of sets gives no square but the one that is bound to a name.
#[cycle(gives_only_name)]
pub fn some_gives_only_name(name: &[u8], parts: &Filters) -> bool
    ensures { result ≡ true → GivesOnlyName name.now (λ tree e n. spec.intersection_of (meaning.values tree [] e (filters_tree parts.now) n)) }
{
    for part in parts.as_slice() {
        if gives_only_name(name, part) {
            return true;
        }
    }
    false
}

/// Returns true only if a part is written, and gives no square but the one that is bound to a name.
pub fn part_gives_only_name(name: &[u8], part: &Option<Box<Filter>>) -> bool
    ensures { result ≡ true → PartGivesOnlyName name.now (written_tree part.now) }
{
    match part {
        Some(part) => gives_only_name(name, part),
        None => false,
    }
}
