//! Items by which games are sorted.
ghost use Rattle.std.specs.Prelude.{◌≡◌};
ghost use Rattle.std.specs.List.{list_any};
ghost use Rattle.cql_syntax.specs.TreeOf.{filter_tree, filters_tree};
ghost use Rattle.cq_search.specs.Sorts.{is_sort, have_sort as some_sort};

use cql_syntax::{Filter, Filters, Form};

/// Returns true if one of the filters is a `sort`.
pub fn have_sort(filters: &Filters) -> bool
    ensures { result ≡ some_sort (filters_tree filters.now) }
{
    any_is_sort(filters.as_slice())
}

// The same of the filters in a row.
fn any_is_sort(filters: &[Filter]) -> bool
    ensures { result ≡ list_any (λ f. is_sort (filter_tree f)) filters.now }
{
    filters.iter().any(|filter| is_sort(filter))
}

fn is_sort(filter: &Filter) -> bool
    ensures { result ≡ is_sort (filter_tree filter.now) }
{
    matches!(filter.form, Form::Sort(..))
}
